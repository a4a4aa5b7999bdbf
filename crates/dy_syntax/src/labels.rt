use crate::names::Nm;

/// A label, which says who may know a value. Each word of it has its line.
#[derive(Debug, Drop)]
pub enum LabelText {
    Public(u32),
    Nobody(u32),
    Session(u32),
    Next(u32),
    Prior(u32),
    Here(u32),
    One(Nm),
    Join(u32, Box<LabelText>, Box<LabelText>),
    Meet(u32, Box<LabelText>, Box<LabelText>),
}
