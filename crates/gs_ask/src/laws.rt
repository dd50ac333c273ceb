ghost use Rattle.gs_ask.specs.Laws.{AnswerRemains, WaitedIsNeeded, WaitedIsNone, EarlierStandsBefore, ReadsWhatItAsks, WaitsWhereItAsks, OneAfterAnother, BothAskAlike};
ghost use Rattle.gs_ask.specs.Laws.{KeptIsChecked, KeptAsksAlike, NotesLeadOn, OneAnswer, CallsGoOn, CallsSettle};
ghost use Rattle.gs_ask.specs.Laws.{DescriptionRemains, AtMostOneDescription, EndsAtSomeDepth, SameTextSameDepth, SameTextSameDescription, SameReachSameDescriptions};
ghost use Rattle.gs_ask.specs.SelectionLaws.{TypesReadTheirNames, TypesAddNothing, LevelsFindTheLeast, LevelsFindMethodSets, MethodSetsAreSelected};

/// What holds of each rule of typing, whatever it asks for (S), is told (R), notes (N), keeps (L) and answers (A).
pub fn each_rule<S, R, N, L, A>()
    ensures answer_remains { AnswerRemains S R N L A }
    ensures waited_is_needed { WaitedIsNeeded S R N L A }
    ensures waited_is_none { WaitedIsNone S R N L A }
    ensures earlier_stands_before { EarlierStandsBefore S R N L A }
    ensures reads_what_it_asks { ReadsWhatItAsks S R N L A }
    ensures waits_where_it_asks { WaitsWhereItAsks S R N L A }
{}

/// What holds of a rule and another over its answer.
pub fn two_rules<S, R, N, L, A, B>()
    ensures one_after_another { OneAfterAnother S R N L A B }
    ensures both_ask_alike { BothAskAlike S R N L A B }
{}

/// What holds of what a rule keeps for later, and of what its notes lead to.
pub fn what_is_kept<S, R, N, L, A>()
    ensures kept_is_checked { KeptIsChecked S R N A }
    ensures kept_asks_alike { KeptAsksAlike S R N A }
    ensures notes_lead_on { NotesLeadOn S R N L A }
{}

/// What holds of calls that answer what a rule comes to, and of two of them one after the other.
pub fn calls<R, N, L, A, B>()
    ensures one_answer { OneAnswer N L A }
    ensures go_on { CallsGoOn R N L A B }
    ensures settle { CallsSettle R N A }
{}

/// What holds of the descriptions that a package's declarations give, by depth.
pub fn descriptions<S, R, N, L>()
    ensures description_remains { DescriptionRemains S R N L }
    ensures at_most_one { AtMostOneDescription S R N L }
    ensures ends_at_some_depth { EndsAtSomeDepth S R N L }
    ensures same_text_same_depth { SameTextSameDepth S R N L }
    ensures same_text_same_description { SameTextSameDescription S R N L }
{}

/// What holds of the descriptions of two source maps; Q are their packages.
pub fn source_maps<S, R, N, L, Q>()
    ensures same_reach_same_descriptions { SameReachSameDescriptions S R N L Q }
{}

/// What holds of underlying types, selections and method sets, beside any notes (N) and whatever is kept (L).
pub fn types<N, L>()
    ensures read_their_names { TypesReadTheirNames N L }
    ensures add_nothing { TypesAddNothing N L }
    ensures levels_find_the_least { LevelsFindTheLeast N L }
    ensures levels_find_method_sets { LevelsFindMethodSets N L }
    ensures method_sets_are_selected { MethodSetsAreSelected N L }
{}
