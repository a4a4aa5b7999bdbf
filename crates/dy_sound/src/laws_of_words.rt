ghost use Rattle.std.specs.Prelude.{◌≡◌, ℕ, true, List, Option, Some, None, map};
ghost use Rattle.std.specs.Option.{option_map};
ghost use Rattle.dy_term.specs.Terms.{Term, Name};
ghost use Rattle.dy_label.specs.Labels.{Session, Version};
ghost use Rattle.dy_label.specs.Words.{Atom, ThisSession, Choice, place_of, meaning_of};
ghost use Rattle.dy_syntax.specs.Names.{Nm, UseText, AtomText};
ghost use Rattle.dy_syntax.specs.Labels.{LabelText};
ghost use Rattle.dy_syntax.specs.Declarations.{CaseDecl, StateDecl, EventDecl};
ghost use Rattle.dy_syntax.specs.Scopes.{Scope, params_named, case_scope, state_scope, event_scope};
ghost use Rattle.dy_syntax.specs.Rules.Words.{has_session, has_here};
ghost use Rattle.dy_syntax.specs.Files.{Decl};
ghost use Rattle.dy_typing.specs.Names.{Setting, Stands, stands_number, number_in, atom_names};
ghost use Rattle.dy_typing.specs.Names.{case_stands, state_stands, event_stands};
ghost use Rattle.dy_typing.specs.Instances.{label_in, use_in};
ghost use Rattle.dy_eval.specs.Lines.{kind_of_usage};
ghost use Rattle.dy_eval.specs.Names.{Names, bytes_for};
ghost use Rattle.dy_eval.specs.Readers.{label_for, usage_for};
ghost use Rattle.dy_sound.specs.Words.{Words, label_meant, usage_meant, args_meant};
ghost use Rattle.dy_sound.specs.Words.{case_words, state_words, event_words};
ghost use Rattle.dy_sound.specs.Knowledge.{usage_chosen};
ghost use Rattle.dy_sound.specs.InScope.{LabelIsInScope, UseIsInScope, AtomIsInScope};
ghost use Rattle.dy_sound.specs.Matches.{scope_in, HandlerMatches, Matches};
ghost use Rattle.dy_sound.specs.Givens.{usage_slots, field_slots, event_slots, case_slots, words_in, AreDistinct, AreGiven};

/// Say that a declaration's words stand for the same in a trace as in a handler. Then its labels,
/// its usages and the arguments of the events that it names mean the same.
pub fn declarations_mean_the_same()
    ensures labels { (setting : Setting) (choice : Choice) (names : Names) (scope : Scope) (stands : Stands)
        (here : Option Atom) (words : Words) → Matches setting choice names scope stands here words →
        (label : LabelText) → LabelIsInScope scope label →
        meaning_of choice (label_in (stands_number setting stands) here label) ≡ label_meant words label }
    ensures usages { (setting : Setting) (choice : Choice) (names : Names) (scope : Scope) (stands : Stands)
        (here : Option Atom) (words : Words) → Matches setting choice names scope stands here words →
        (usage : UseText) → UseIsInScope scope usage →
        usage_chosen setting.decls choice (use_in (stands_number setting stands) usage)
        ≡ usage_meant setting.decls words usage }
    ensures arguments { (setting : Setting) (choice : Choice) (names : Names) (scope : Scope) (stands : Stands)
        (here : Option Atom) (words : Words) → Matches setting choice names scope stands here words →
        (atom : AtomText) (given : List Nm) → AtomIsInScope scope atom → atom_names stands atom ≡ Some given →
        args_meant words atom ≡ Some (map (bytes_for names) given) }
{}

/// The words of a case, a state and an event's declaration stand for the same in a trace as in a
/// handler. What the handler gives for parameters and fields has their values.
pub fn declared_words_stand_for_the_same()
    ensures cases { (setting : Setting) (choice : Choice) (names : Names) (case : CaseDecl) (args : List Nm)
        (owners : List (List ℕ)) (stands : List (Option Nm)) (fields : List Term) →
        AreDistinct (words_in (case_slots setting.decls case)) →
        AreGiven setting choice names (usage_slots (params_named setting.decls case.usage.word))
        (map Some args) (map Name owners) →
        AreGiven setting choice names (field_slots case.fields) stands fields →
        Matches setting choice names (case_scope setting.decls case) (case_stands setting.decls args case stands)
        None (case_words setting.decls owners case fields) }
    ensures states { (setting : Setting) (choice : Choice) (names : Names) (state : StateDecl) (here : Option Atom)
        (session version : ℕ) (stands : List (Option Nm)) (fields : List Term) →
        AreDistinct (words_in (field_slots state.fields)) →
        AreGiven setting choice names (field_slots state.fields) stands fields →
        choice.principals 0 ≡ names.principal →
        (has_session (state_scope state).place ≡ true →
        Session names.principal session ≡ place_of choice ThisSession) →
        (has_here (state_scope state).place ≡ true →
        Some (Version names.principal session version) ≡ option_map (place_of choice) here) →
        Matches setting choice names (state_scope state) (state_stands state stands) here
        (state_words state names.principal session version fields) }
    ensures events { (setting : Setting) (choice : Choice) (names : Names) (event : EventDecl) (args : List Nm)
        (values : List Term) → AreDistinct (words_in (event_slots event.params)) →
        AreGiven setting choice names (event_slots event.params) (map Some args) values →
        Matches setting choice names (event_scope event) (event_stands event args) None (event_words event values) }
{}

/// A handler's own labels and usages mean in the typing rules what they mean in an instance of it.
pub fn handlers_mean_the_same()
    ensures labels { (handler_words : List (List ℕ)) (newest : ℕ) (names : Names) (choice : Choice) →
        HandlerMatches handler_words newest names choice →
        (label : LabelText) → LabelIsInScope (scope_in handler_words names) label →
        meaning_of choice (label_in (number_in handler_words) None label) ≡ label_for names newest label }
    ensures usages { (decls : List Decl) (handler_words : List (List ℕ)) (newest : ℕ) (names : Names)
        (choice : Choice) → HandlerMatches handler_words newest names choice →
        (usage : UseText) → UseIsInScope (scope_in handler_words names) usage →
        usage_chosen decls choice (use_in (number_in handler_words) usage)
        ≡ usage_for names (kind_of_usage decls usage.usage.word) usage }
{}
