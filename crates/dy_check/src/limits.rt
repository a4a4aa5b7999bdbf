/// The most fields, required events or partners that one declaration has.
pub const MAX_MEMBERS: usize = 255;
