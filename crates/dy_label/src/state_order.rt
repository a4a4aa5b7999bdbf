ghost use Rattle.std.specs.Prelude.{◌≡◌, ℕ, true, false};
ghost use Rattle.dy_label.specs.StateOrder.{comes_before};

/// The order of look-ups is total. No state comes before itself, and of two different ones one
/// comes first. What comes before a second comes before what the second comes before.
pub fn states_are_in_one_order()
    ensures itself { (at : ℕ × ℕ) → comes_before at at ≡ false }
    ensures through { (first second third : ℕ × ℕ) → comes_before first second ≡ true →
        comes_before second third ≡ true → comes_before first third ≡ true }
    ensures total { (first second : ℕ × ℕ) → comes_before first second ≡ false →
        comes_before second first ≡ false → first ≡ second }
{}
