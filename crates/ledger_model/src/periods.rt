ghost use Rattle.std.specs.Prelude.{◌≡◌};
ghost use Rattle.ledger_model.specs.Quarter.{IsPeriod};

use crate::period::Period;
use crate::settle::Settle;
use std::marker::Model;

/// The settlement periods of a site: their length, and the rule by which differences count in them.
#[derive(Clone, Copy, PartialEq, Eq)]
pub struct Periods {
    length: Period,
    rule: Settle,
}

impl Model for Periods {
    ghost use Rattle.ledger_model.specs.Periods.{Periods as SitePeriods, periods_code};

    ghost Value = { SitePeriods };

    ghost coded = { periods_code };

    ghost view = { λ p. record { length = p.length; rule = p.rule } };

    ghost inverse = { λ p. record { length = p.length; rule = p.rule } };
}

impl Periods {
    /// Periods of this length, in which differences count by this rule.
    pub fn new(length: Period, rule: Settle) -> Self
        ensures { result ≡ record { length = length; rule = rule } }
    {
        Periods { length, rule }
    }

    /// The length of each period.
    pub fn length(self) -> Period
        ensures value { result ≡ self.length }
        ensures range { IsPeriod result }
    {
        self.length.copied()
    }

    /// The rule by which differences count in them.
    pub fn rule(self) -> Settle
        ensures { result ≡ self.rule }
    {
        self.rule
    }

    /// The same rule for periods of this length.
    pub fn with_length(self, length: Period) -> Self
        ensures { result ≡ record self { length = length } }
    {
        Periods {
            length,
            rule: self.rule,
        }
    }

    /// Periods of the same length, in which differences count by this rule.
    pub fn with_rule(self, rule: Settle) -> Self
        ensures { result ≡ record self { rule = rule } }
    {
        Periods {
            length: self.length,
            rule,
        }
    }

    /// The periods once more, each of one of the four lengths.
    pub fn copied(self) -> Self
        ensures value { result ≡ self }
        ensures range { IsPeriod result.length }
    {
        Periods {
            length: self.length.copied(),
            rule: self.rule,
        }
    }
}

impl Default for Periods {
    ghost use Rattle.std.specs.Prelude.{◌≡◌};
    ghost use Rattle.ledger_model.specs.Settling.{default_periods};

    ghost is_default = { λ periods. periods ≡ default_periods };

    /// Those of a site that declares none: 900 seconds, by the later reading.
    fn default() -> Self {
        Periods {
            length: Period::default(),
            rule: Settle::default(),
        }
    }
}
