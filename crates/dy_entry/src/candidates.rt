ghost use Rattle.std.specs.Prelude.{◌≡◌};
ghost use Rattle.dy_label.specs.StateOrder.{comes_before, is_after};
ghost use Rattle.dy_entry.specs.MirrorLookUps.{earlier_of};

/// A session, and a version of its state.
pub(crate) type Stored = (u32, u32);

/// A state that fits: its index, and its session and version.
pub(crate) type Candidate = (u32, Stored);

/// Whether the first comes before the second in the order of rising sessions and, within one, of
/// falling versions.
fn comes_before(first: Stored, second: Stored) -> bool
    ensures { result ≡ comes_before first second }
{
    first.0 < second.0 || (first.0 == second.0 && second.1 < first.1)
}

/// Whether this version comes after what is given, if anything is.
fn is_after(from: Option<Stored>, at: Stored) -> bool
    ensures { result ≡ is_after from at }
{
    match from {
        None => true,
        Some(from) => comes_before(from, at),
    }
}

/// The earlier of what was found and another state at a later index, if that one comes after what
/// is given.
pub(crate) fn earlier_of(
    from: Option<Stored>,
    found: Option<Candidate>,
    other: Candidate,
) -> Option<Candidate>
    ensures { result ≡ earlier_of from found other }
{
    let is_earlier = match found {
        None => true,
        Some(found) => comes_before(other.1, found.1),
    };
    if is_after(from, other.1) && is_earlier {
        Some(other)
    } else {
        found
    }
}
