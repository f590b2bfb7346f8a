//! The law of the two versions of the grammar. The body of the function does nothing; its contract is the law.

ghost use Rattle.byte_unit_base.specs.Laws.Versions.{ExtendsFirst};

/// States that v2, the current version, has one prefix letter more than v1, and limits 2^16 times as large for whole
/// parts and a thousand times as large for sizes.
pub fn current_extends_old()
    ensures { ExtendsFirst }
{}
