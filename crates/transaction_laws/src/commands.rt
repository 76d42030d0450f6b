//! The commands of one transaction.
ghost use Rattle.std.specs.Prelude.{◌≡◌, filter, map, IfOk};
ghost use Rattle.ledger_model.specs.Admissible.{key_of};
ghost use Rattle.transaction_laws.specs.Alone.{belongs_to};

use ledger_model::{Command, TxId};
use std::alloc::{AllocError, Global};

/// Whether a command is on an event of this transaction.
pub fn belongs(command: &Command, tx: &TxId) -> bool
    ensures { result ≡ belongs_to tx.now (key_of command.now) }
{
    tx == command.key().tx()
}

/// The commands on events of one transaction, in their order: what a ledger gets that has this transaction
/// alone.
pub fn commands_alone<'a>(
    alloc: Global,
    tx: &TxId,
    commands: &'a [Command],
) -> Result<Vec<&'a Command>, AllocError>
    ensures { IfOk result (λ own. map (λ command. command.now) own.items ≡ filter (λ command. belongs_to tx.now (key_of command)) commands.now) }
{
    let mut own = Vec::new(alloc);
    for command in commands {
        if belongs(command, tx) {
            own.push(command)?;
        }
    }
    Ok(own)
}

#[cfg(test)]
mod tests {
    use super::*;
    use ledger_model::Key;
    use std::test::Fail;

    fn voided(tx: &str) -> Option<Command> {
        Some(Command::Void(Key::new(TxId::new(tx)?, 1)?))
    }

    #[test]
    fn commands_of_one_transaction(rt: HostRuntime) -> Result<(), Fail> {
        let tx = TxId::new("T1").ok_or("an id")?;
        let commands = [voided("t2").ok_or("a key")?, voided("t1").ok_or("a key")?];
        let own = commands_alone(rt.alloc(), &tx, &commands)?;
        assert_eq!(rt; own.len(), 1);
        assert!(rt; belongs(own[0], &tx));
        Ok(())
    }
}
