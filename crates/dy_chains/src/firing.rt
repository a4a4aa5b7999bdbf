ghost use Rattle.std.specs.Prelude.{◌≡◌, ◌<◌, ◌≤◌, ◌^◌, ℕ, ◌↔◌, IsTrue, length};
ghost use Rattle.std.specs.List.{All};
ghost use Rattle.dy_chains.specs.Rules.{EachPremise, IsBelow};
ghost use Rattle.dy_chains.specs.Logs.{IsLogged, IsComplete};
ghost use Rattle.dy_chains.specs.MirrorLogs.{Gains, IsTried, IsClosed};
ghost use Rattle.dy_chains.specs.MirrorWatchers.{IsListed, AreWatched};

use crate::logs::{Log, Step};
use crate::rules::{Premises, Rule};
use crate::watchers::Watchers;

/// Whether each premise of the rule is logged.
fn has_premises(log: &Log, rule: &Rule) -> bool
    ensures { IsTrue result ↔ EachPremise (IsLogged log.now.steps) rule.now }
{
    match rule.premises {
        Premises::None => true,
        Premises::One(first) => log.has(first),
        Premises::Two(first, second) => log.has(first) && log.has(second),
        Premises::Three(first, second, third) => {
            log.has(first) && log.has(second) && log.has(third)
        }
    }
}

/// Logs what the rule of this number concludes, if it has its premises and that is not logged yet.
fn try_rule(rules: &[Rule], number: u32, log: &mut Log)
    requires { All (IsBelow log.old.facts) rules.now }
    ensures gains { Gains rules.now log.old log.new }
    ensures tried { IsTried rules.now log.new.steps (length log.old.steps) number }
{
    let Some(rule) = rules.get(number as usize) else {
        return;
    };
    if log.has(rule.conclusion) {
        return;
    }
    if !has_premises(log, rule) {
        return;
    }
    log.push(Step {
        fact: rule.conclusion,
        rule: number,
    });
}

/// Tries each rule from this number on.
fn try_from(rules: &[Rule], first: u32, log: &mut Log)
    requires few { length rules.now < 2 ^ 32 }
    requires below { All (IsBelow log.old.facts) rules.now }
    ensures gains { Gains rules.now log.old log.new }
    ensures tried { (number : ℕ) → first ≤ number →
        IsTried rules.now log.new.steps (length log.old.steps) number }
{
    for number in first..rules.len() as u32 {
        try_rule(rules, number, log);
    }
}

/// Tries each rule that has the fact as a premise.
fn try_watchers(rules: &[Rule], watchers: &Watchers, fact: u32, log: &mut Log)
    requires { All (IsBelow log.old.facts) rules.now }
    ensures gains { Gains rules.now log.old log.new }
    ensures tried { (number : ℕ) → IsListed watchers.now number fact →
        IsTried rules.now log.new.steps (length log.old.steps) number }
{
    let mut next = watchers.newest(fact);
    while let Some(place) = next {
        let watcher = watchers.at(place);
        try_rule(rules, watcher.rule, log);
        next = watcher.before;
    }
}

/// Logs all that follows. What rules conclude from the first facts of the log, so many, is logged already.
fn saturate(rules: &[Rule], watchers: &Watchers, log: &mut Log, done: u32)
    requires below { All (IsBelow log.old.facts) rules.now }
    requires watched { AreWatched watchers.now rules.now }
    requires within { done ≤ length log.old.steps }
    requires closed { IsClosed rules.now log.old.steps done }
    ensures gains { Gains rules.now log.old log.new }
    ensures complete { IsComplete rules.now log.new.steps }
{
    let mut done = done;
    while done < log.len() {
        try_watchers(rules, watchers, log.fact_at(done), log);
        done += 1;
    }
}

/// Logs all that follows, where the rules before this number conclude nothing that is not logged.
pub(crate) fn fire_from(rules: &[Rule], first: u32, watchers: &Watchers, log: &mut Log)
    requires few { length rules.now < 2 ^ 32 }
    requires below { All (IsBelow log.old.facts) rules.now }
    requires watched { AreWatched watchers.now rules.now }
    requires tried { (number : ℕ) → number < first →
        IsTried rules.now log.old.steps (length log.old.steps) number }
    ensures gains { Gains rules.now log.old log.new }
    ensures complete { IsComplete rules.now log.new.steps }
{
    let done = log.len();
    try_from(rules, first, log);
    saturate(rules, watchers, log, done);
}
