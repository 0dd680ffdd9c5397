// What the entries for C do not show, for tests outside Rattle: the reader, the facts and the texts, thin over the
// proved crates.
#![tactic(auto)]

ghost use Rattle.std.specs.Prelude.{◌≡◌};
ghost use Rattle.rules.specs.Table.{longest, present};
ghost use Rattle.rules.specs.Refusals.{refusal};
ghost use Rattle.rules.specs.Text.{check_text};
ghost use Rattle.rules.specs.RunText.{ran_text};
ghost use Rattle.text_writing.specs.Lay.{Laid};
ghost use Rattle.rules.specs.Entries.{code_of};
ghost use Rattle.pairs.specs.NextHops.{listens_in};
ghost use Rattle.probe.specs.Numbers.{mark_of, slot_at, nexts_of};

use check_text::check_text;
use pairs::{is_listening, next_hops};
use reader::read;
use run_text::run_text;
use slices::value_or;
use table_facts::{NO_RECORD, PAIRS, SLOTS, VERTICES, longest_hops, present_in, slots_of};

// 0 where the table is accepted, otherwise the refusal's number plus 256 times its place.
#[unsafe(no_mangle)]
pub extern "C" fn probe_read(table: &[u8]) -> u64
    ensures { result ≡ code_of (refusal table.now) }
{
    match read(table) {
        Ok(_) => 0,
        // A cast, since there is no `From` of a usize.
        Err(refusal) => u64::from(refusal.number) + 256 * (refusal.place as u64),
    }
}

// The hops of the longest path.
#[unsafe(no_mangle)]
pub extern "C" fn probe_longest(table: &[u8]) -> u64
    ensures { result ≡ longest table.now }
{
    u64::from(longest_hops(table))
}

// 1 where v is a vertex that is present, otherwise 0.
#[unsafe(no_mangle)]
pub extern "C" fn probe_present(table: &[u8], v: u64) -> u64
    ensures { result ≡ mark_of (present table.now) 64 v }
{
    let v = v as usize;
    if VERTICES <= v {
        return 0;
    }
    u64::from(value_or(&present_in(table), v, false))
}

// 1 where the pair, 64 times the listener plus the speaker, listens by the slots, which in an accepted table is where
// it is a listening pair; otherwise 0.
#[unsafe(no_mangle)]
pub extern "C" fn probe_listens(table: &[u8], pair: u64) -> u64
    ensures { result ≡ mark_of (listens_in (nexts_of table.now)) 4096 pair }
{
    let pair = pair as usize;
    if PAIRS <= pair {
        return 0;
    }
    let nexts = next_hops(table);
    u64::from(is_listening(&nexts, (pair / VERTICES) as u8, (pair % VERTICES) as u8))
}

// The record in slot k of v, 65,535 where the slot is empty or there is none.
#[unsafe(no_mangle)]
pub extern "C" fn probe_slot(table: &[u8], v: u64, k: u64) -> u64
    ensures { result ≡ slot_at table.now v k }
{
    let (v, k) = (v as usize, k as usize);
    if VERTICES <= v {
        return u64::from(NO_RECORD);
    }
    if SLOTS <= k {
        return u64::from(NO_RECORD);
    }
    let slots = slots_of(table);
    u64::from(value_or(&slots[v], k, NO_RECORD))
}

// The check program's text, laid over the front of the lent text as far as it fits, and how many bytes that is.
#[unsafe(no_mangle)]
pub extern "C" fn probe_text(table: &[u8], text: &mut [u8]) -> u64
    ensures { Laid 0 (check_text table.now) text.old text.new result }
{
    check_text(table, text) as u64
}

// The run program's text, laid over the front of the lent text as far as it fits, and how many bytes that is.
#[unsafe(no_mangle)]
pub extern "C" fn probe_run_text(table: &[u8], schedule: &[u8], text: &mut [u8]) -> u64
    ensures { Laid 0 (ran_text table.now schedule.now) text.old text.new result }
{
    run_text(table, schedule, text) as u64
}
