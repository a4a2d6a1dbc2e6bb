// Why a file isn't read out of a memory.
ghost use Rattle.std.specs.Prelude.{◌≡◌};
ghost use Rattle.kc_files.specs.declared.unread.Unread.TheVariants as unread;
ghost use Rattle.kc_files.specs.Reading.{log_answer, log_stop, tables_answer, tables_stop};

use kc_kallsyms::{TableFault, TableStop};
use kc_memory::Miss;
use kc_printk::{LogFault, LogStop};
use kc_word::NoMemory;

/// Why a file isn't read out of a memory.
#[derive(Clone, Copy, Debug, PartialEq, Eq)]
pub enum Unread {
    /// The dump's page tables or its memory end at a word on the way.
    Miss(Miss),
    /// Reading the dump failed. The count of faults rose.
    Fault,
    /// The tables of symbols aren't in order.
    Table(TableFault),
    /// The log isn't in order.
    Log(LogFault),
    /// No memory was left.
    NoMemory,
}

impl From<NoMemory> for Unread {
    ghost from_gives = { λ _ stop. stop ≡ unread.NoMemory };

    fn from(_: NoMemory) -> Self {
        Unread::NoMemory
    }
}

impl From<TableStop> for Unread {
    ghost from_gives = { λ stop unread. unread ≡ tables_stop stop };

    fn from(stop: TableStop) -> Self {
        match stop {
            TableStop::Miss(miss) => Unread::Miss(miss),
            TableStop::Fault => Unread::Fault,
            TableStop::Table(fault) => Unread::Table(fault),
            TableStop::NoMemory => Unread::NoMemory,
        }
    }
}

impl From<LogStop> for Unread {
    ghost from_gives = { λ stop unread. unread ≡ log_stop stop };

    fn from(stop: LogStop) -> Self {
        match stop {
            LogStop::Miss(miss) => Unread::Miss(miss),
            LogStop::Fault => Unread::Fault,
            LogStop::Refused(fault) => Unread::Log(fault),
            LogStop::NoMemory => Unread::NoMemory,
        }
    }
}

// What the tables of symbols gave.
pub(crate) fn tables_answer(read: Result<Vec<u8>, TableStop>) -> Result<Vec<u8>, Unread>
    ensures { result ≡ tables_answer read }
{
    Ok(read?)
}

// What the ring of the log gave.
pub(crate) fn log_answer(read: Result<Vec<u8>, LogStop>) -> Result<Vec<u8>, Unread>
    ensures { result ≡ log_answer read }
{
    Ok(read?)
}
