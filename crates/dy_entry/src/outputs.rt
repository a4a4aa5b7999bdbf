/// The entries of an instance that are found by their number.
#[derive(Clone, Copy)]
pub(crate) enum Output {
    Message,
    Cert,
}
