// The reader of path tables: accepted, or refused with number and place.
#![tactic(auto)]

mod faults;

ghost use Rattle.std.specs.Prelude.{◌≡◌, IfOk};
ghost use Rattle.std.proofs.Math.Option.{none};
ghost use Rattle.rules.specs.Refusals.{refusal};
ghost use Rattle.answer.specs.Refused.{refused_in};

use crate::faults::Entry;
use answer::{Refusal, Rule};
use record_fields::RECORD_BYTES;

// 1,008 records.
const MOST_BYTES: usize = 16128;

// A table that is accepted.
#[derive(Clone, Copy, Debug, PartialEq, Eq)]
pub struct Table<'a> {
    pub bytes: &'a [u8],
    pub ghost accepted: { refusal bytes.now ≡ none },
}

// Reads a table of any length: the rules' first refusal, or the table as an accepted one.
pub fn read(table: &[u8]) -> Result<Table<'_>, Refusal>
    ensures refusal { refused_in result ≡ refusal table.now }
    ensures bytes { IfOk result (λ accepted. accepted.bytes.now ≡ table.now) }
{
    let length = table.len();
    if MOST_BYTES < length {
        return Err(Rule::LongTable.at(0));
    }
    if length % RECORD_BYTES != 0 {
        return Err(Rule::RaggedTable.at(0));
    }
    let count = length / RECORD_BYTES;
    for i in 0..count {
        let entry = Entry { table, i };
        if let Err(rule) = entry.fault() {
            return Err(rule.at(i));
        }
    }
    Ok(Table { bytes: table })
}
