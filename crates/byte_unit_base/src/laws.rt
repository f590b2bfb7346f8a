//! Laws of the definitions. Each function does nothing; its contract is the law.

pub mod binary;
pub mod readers;
pub mod sizes;
pub mod versions;
pub mod words;
