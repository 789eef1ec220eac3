// The rules of an accepted rule file.
ghost use Rattle.std.specs.Prelude.{◌≡◌, ◌<◌, get_or};
ghost use Rattle.files.specs.Record.{count};
ghost use Rattle.files.specs.Rules.{no_rule};
ghost use Rattle.files.specs.Decode.{decode_rules};
ghost use Rattle.files.specs.Access.{RulesFile, rule_held};

use crate::parse::read;

#[derive(Clone, Copy)]
pub struct MonitorRule {
    pub state: u8,
    pub event: u8,
    pub m1: u8,
    pub m2: u8,
    pub next: u8,
}

// Rule j.
pub fn rule_at(rules: &[u8], j: usize) -> MonitorRule
    requires { (RulesFile rules.now) × (j < count rules.now) }
    ensures { result ≡ rule_held (get_or (decode_rules rules.now) j no_rule) }
{
    let r = read(rules, j);
    MonitorRule {
        state: r.first,
        event: r.second,
        m1: r.third,
        m2: r.fourth,
        next: r.fifth,
    }
}
