/// Why no Book was opened.
#[derive(Clone, Copy, Debug, PartialEq, Eq)]
pub enum OpenError {
    /// The input is no well-formed file, by the fault on this line.
    BadInput { line: u32 },
    Memory,
}

/// What comes of starting an instance. `Ok` has the index of its Start.
#[derive(Clone, Copy, Debug, PartialEq, Eq)]
pub enum Started {
    Ok { index: u32 },
    /// The entry of this step stands at the index.
    Already { index: u32 },
    /// The session that is given was opened by no Start of the principal.
    NoSession,
    /// This instance of the session has no End.
    Busy { instance: u32 },
    /// At the index that is given stands no message.
    NoMessage,
    Memory,
}

/// What comes of advancing an instance.
#[derive(Clone, Copy, Debug, PartialEq, Eq)]
pub enum Advanced {
    /// The instance put an item, whose entry has this index.
    Put { index: u32 },
    /// The instance ended, and its End has this index.
    Finished { index: u32 },
    /// No Start stands there.
    NoInstance,
    /// The End of the instance stands at this index already.
    Ended { index: u32 },
    Memory,
}

/// What comes of a corruption, a nonce of the attacker or a step that is left out.
#[derive(Clone, Copy, Debug, PartialEq, Eq)]
pub enum Added {
    Ok { index: u32 },
    /// The entry of this step stands at the index.
    Already { index: u32 },
    Memory,
}

/// What comes of a message of the attacker.
#[derive(Clone, Copy, Debug, PartialEq, Eq)]
pub enum Injected {
    Ok { index: u32 },
    /// The entry of this step stands at the index.
    Already { index: u32 },
    /// The recipe has no value, and a Skip has this index.
    Skipped { index: u32 },
    Memory,
}
