//! The offsets of many texts in one buffer.

ghost use Rattle.std.specs.Prelude.{◌≡◌, ◌+◌, ◌<◌, ◌≤◌, ◌↔◌, pos, ◌≤ℤ◌, IsTrue, length, slice_index_or, slice_range};
ghost use Rattle.byte_unit_c.specs.Many.{offsets_of, Ascends, position, text_at};

/// Offsets of 64 or of 32 bits.
#[derive(Clone, Copy)]
pub enum Offsets<'a> {
    /// Offsets of 64 bits.
    Long(&'a [i64]),
    /// Offsets of 32 bits.
    Short(&'a [i32]),
}

impl<'a> Offsets<'a> {
    /// Returns the number of offsets.
    pub fn len(self) -> usize
        ensures { result ≡ length (offsets_of self.entry) }
    {
        match self {
            Offsets::Long(offsets) => offsets.len(),
            Offsets::Short(offsets) => offsets.len(),
        }
    }

    /// Returns an offset by its index.
    ///
    /// Precondition (proved at every call): `i` is less than the number of offsets.
    fn at(self, i: usize) -> i64
        requires { i < length (offsets_of self) }
        ensures { result ≡ slice_index_or (offsets_of self.entry) i (pos 0) }
    {
        match self {
            Offsets::Long(offsets) => offsets[i],
            Offsets::Short(offsets) => offsets[i] as i64,
        }
    }

    /// Returns whether the first offset is 0 or more, none is less than the one before it, and the last is at most
    /// `len`.
    pub fn ascend_to(self, len: usize) -> bool
        ensures { IsTrue result ↔ Ascends (pos 0) (pos len) (offsets_of self.entry) }
    {
        let mut low = 0;
        for i in 0..self.len() {
            let offset = self.at(i);
            if offset < low {
                return false;
            }
            low = offset;
        }
        // `low` is the last offset, or 0, and so not negative.
        low as u64 <= len as u64
    }

    /// Returns the bytes of a text by its index: those from offset `i` up to offset `i + 1`.
    ///
    /// Preconditions (proved at every call): the offsets ascend to at most the length of `data`, and `i + 1` is less
    /// than their number.
    pub fn text_at<'d>(self, data: &'d [u8], i: usize) -> &'d [u8]
        requires bound { i + 1 < length (offsets_of self) }
        requires ascends { Ascends (pos 0) (pos (length «data».now)) (offsets_of self) }
        ensures { result.now ≡ text_at «data».now (offsets_of self.entry) i }
    {
        let begin = position(self.at(i));
        let end = position(self.at(i + 1));
        part(data, begin, end)
    }
}

/// Converts an offset to a position in a buffer.
///
/// Precondition (proved at every call): the offset is 0 or more.
fn position(offset: i64) -> usize
    requires { pos 0 ≤ℤ offset }
    ensures { result ≡ position offset }
{
    offset as usize
}

/// Returns the bytes from `begin` up to `end`.
///
/// Precondition (proved at every call): `begin <= end <= data.len()`.
fn part<'d>(data: &'d [u8], begin: usize, end: usize) -> &'d [u8]
    requires ordered { begin ≤ end }
    requires bound { end ≤ length «data».now }
    ensures { result.now ≡ slice_range «data».now begin end }
{
    &data[begin..end]
}
