//! What probes hear, as the second program decides it.

pub mod table_1;
pub mod table_2;
pub mod table_3;
pub mod table_4;
