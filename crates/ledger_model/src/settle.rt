/// Which settlement period the difference of two readings counts in (MeterValueType, OCPP 2.0.1 Part 2,
/// J02; the rules are this product's profile).
#[derive(Clone, Copy, PartialEq, Eq)]
pub enum Settle {
    /// The period that the later reading lies in. A reading right at the start of a period brings its
    /// difference into the period that starts there.
    Later,
    /// The period that the later reading closes. A reading at 10:15:00 closes the quarter of an hour that
    /// began at 10:00:00, so its difference counts there.
    Closing,
    /// Shared by time: the difference of two readings that lie at most a day apart belongs to the periods between
    /// them, to each by the time that lies in it, as if the register had risen or fallen evenly. Any other difference
    /// counts as by `Closing`.
    Even,
}

impl Default for Settle {
    ghost use Rattle.std.specs.Prelude.{◌≡◌};
    ghost use Rattle.ledger_model.specs.declared.settle.Settle.TheVariants.{Later};

    ghost is_default = { λ rule. rule ≡ Later };

    /// The rule of a site that declares none: by the later reading.
    fn default() -> Self {
        Settle::Later
    }
}
