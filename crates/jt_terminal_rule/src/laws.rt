//! Laws of the terminal's rule, which is defined in specs/Rule.

ghost use Rattle.jt_terminal_rule.specs.Law.{ControlKeepsTheLastPlace, FirstStartIsInOrder, FittingIsGreatest, HeardIsCutInSteps, HeardTakesSteps, NotedFixIsAStep, PacketsKeepTheLastPlace, ResponsesNameTheUnit, RuleIsCutInSteps, RuleKeepsSettings, RuleTakesSteps, RuleTellsTheUnit, StartIsARestart, UnitCarriesFirstFixes, WaitsGrow};
ghost use Rattle.jt_terminal_rule.specs.Unsaid.{EachFrameIsOneLess};
ghost use Rattle.jt_terminal_rule.specs.Waits.{PassesAllWaits};
ghost use Rattle.std.specs.Prelude.{ℕ, List};
ghost use Rattle.jt_header.specs.declared.header.Header.{Header};
ghost use Rattle.jt_terminal_rule.specs.declared.settings.Settings.{Settings};

/// Units are formed of the first fixes that wait: as many as a body of at most 1,023 octets can carry.
pub fn law_forming()
    ensures greatest { FittingIsGreatest }
    ensures carries { UnitCarriesFirstFixes }
{
    jt_position::law_fixes();
}

/// What the rule does at each event, to its end or cut short, is steps that any terminal may take; and control messages leave
/// the last serial before the limit to a unit.
pub fn law_rule()
    ensures control { ControlKeepsTheLastPlace }
    ensures packets { PacketsKeepTheLastPlace }
    ensures steps { RuleTakesSteps }
    ensures cut { RuleIsCutInSteps }
    ensures heard { HeardTakesSteps }
    ensures heard_cut { HeardIsCutInSteps }
    ensures told { RuleTellsTheUnit }
    ensures noted { NotedFixIsAStep }
    ensures start { StartIsARestart }
    ensures first { FirstStartIsInOrder }
    ensures settings { RuleKeepsSettings }
{
    jt_position::law_fixes();
}

/// The rule at work: the waits for the reply to a registration, and responses that name a unit.
pub fn law_examples()
    ensures waits { WaitsGrow }
    ensures responses { (settings : Settings) (body : List ℕ) (h : Header) →
        ResponsesNameTheUnit settings body h }
{}

/// A line is given up for want of an answer only once all waits have passed since the first sending, of which there were more
/// than repeats.
pub fn law_waits()
    ensures { PassesAllWaits }
{}

/// At a message of the platform each frame that is sent, but for those of its answer, is one less that the terminal may still
/// say on its line.
pub fn law_unsaid()
    ensures { EachFrameIsOneLess }
{}
