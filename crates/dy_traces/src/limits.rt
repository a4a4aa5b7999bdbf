/// The step numbers of a short trace are below this one.
pub const MAX_STEPS: u32 = 1024;
