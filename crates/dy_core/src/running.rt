use dy_eval::Instance;

/// An instance that has no End: the index of its Start, and that of its last item, if it has put one.
#[derive(Debug, Drop)]
pub(crate) struct Running {
    pub(crate) start: u32,
    pub(crate) landed: Option<u32>,
    pub(crate) instance: Instance,
}
