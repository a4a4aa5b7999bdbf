ghost use Rattle.std.specs.Prelude.{◌≡◌, ◌≢◌, ◌↔◌, true, List, []};
ghost use Rattle.std.specs.List.{list_all};
ghost use Rattle.dy_label.specs.Labels.{Place, is_open};
ghost use Rattle.dy_label.specs.Words.{StaticLabel, Choice, meaning_of, Implies};
ghost use Rattle.dy_types.specs.Claims.{StaticUse, Known, HasUse, HasPk, HasVk, MeetImplies, IsWeaker, identify_with};
ghost use Rattle.dy_types.specs.FieldTypes.{Declared, Fits, narrow_by};

/// A meet of labels implies a label exactly where there are labels and, where all of them are open,
/// that label is. This is for every choice of principals, session and versions for the handler's
/// words, and all corruptions.
pub fn what_a_meet_implies()
    ensures { (labels : List StaticLabel) (weaker : StaticLabel) → MeetImplies labels weaker ↔
        ((labels ≢ []) × ((choice : Choice) (corruptions : List Place) →
        list_all (λ label. is_open corruptions (meaning_of choice label)) labels ≡ true →
        is_open corruptions (meaning_of choice weaker) ≡ true)) }
{}

/// Knowledge is no weaker than itself, and what is weaker than weaker knowledge is weaker.
pub fn weaker_knowledge_is_ordered()
    ensures itself { (known : Known) → IsWeaker known known }
    ensures onward { (first second third : Known) → IsWeaker first second → IsWeaker second third →
        IsWeaker first third }
{}

/// What weaker knowledge has or fits, stronger knowledge has and fits.
pub fn stronger_knowledge_has_more()
    ensures fits { (stronger weaker : Known) (type : Declared) →
        IsWeaker stronger weaker → Fits weaker type → Fits stronger type }
    ensures uses { (stronger weaker : Known) (usage : StaticUse) →
        IsWeaker stronger weaker → HasUse weaker usage → HasUse stronger usage }
    ensures pks { (stronger weaker : Known) (label : StaticLabel) (usage : StaticUse) →
        IsWeaker stronger weaker → HasPk weaker label usage → HasPk stronger label usage }
    ensures vks { (stronger weaker : Known) (label : StaticLabel) (usage : StaticUse) →
        IsWeaker stronger weaker → HasVk weaker label usage → HasVk stronger label usage }
{}

/// From stronger parts comes stronger knowledge. Parts are a hi that more labels imply, a guard that
/// implies more labels, and stronger knowledge of each of two values that are one.
pub fn weaker_parts_give_weaker_knowledge()
    ensures narrow_by { (type : Declared) (hi weaker_hi guard weaker_guard : StaticLabel) →
        Implies weaker_hi hi → Implies guard weaker_guard →
        IsWeaker (narrow_by type hi guard) (narrow_by type weaker_hi weaker_guard) }
    ensures identify_with { (first second weaker_first weaker_second : Known) →
        IsWeaker first weaker_first → IsWeaker second weaker_second →
        IsWeaker (identify_with first second) (identify_with weaker_first weaker_second) }
{}
