// The published examples of paper 001, run: of each its check, then its rows and states, and what the machine makes of
// them. Each example is a plan, a table and the pairs of its rows; crates/published_plan says what a plan's line means.
#![tactic(auto)]

use published::rows::{bad_gadget_rounds, bleedin_edge_rows, di_safe_gree_rows, disagree_rows};
use published::tables::{bad_gadget, bleedin_edge, di_safe_gree, disagree};
use published_plan::show_example;

// Row 2 of Table 2 needs its two pairs at one moment; one by one they end in a stable state of Table 3.
const DISAGREE: &[u8] = b"0c\x00\x00DISAGREE of 001: Figure 1b, Tables 2 and 3, one by one\n\
    0r\x00\x04from zeros, row 1, pairs\n\
    .e\x0c\x04row 2, 2 first, pairs\n\
    0r\x00\x04from zeros, row 1, pairs\n\
    .e\x04\x04row 2, 1 first, pairs\n";

const BAD_GADGET: &[u8] = b"0c\x00\x00BAD GADGET of 001: Figure 1a, by its well-known lists\n\
    0r\x00\x0cround 1, pairs\n\
    .r\x0c\x0cround 2, pairs\n\
    .e\x18\x0cround 3, pairs\n";

// Row 3 of Table 4 needs its two pairs at one moment: neither order of them one by one gives its state. From that state
// the rows 4 to 9 follow one by one, and then row 2 again.
const BLEEDIN_EDGE: &[u8] = b"0c\x00\x00BLEEDIN-EDGE of 001: Figure 3a, Tables 4 and 5\n\
    0.\x00\x00Table 4 from zeros, one by one\n\
    .r\x00\x06row 1, pairs\n\
    .r\x06\x02row 2, pairs\n\
    .r\x08\x04row 3, 4 first, pairs\n\
    <r\x22\x04row 3 after row 2 again, 2 first, pairs\n\
    3.\x00\x00Table 4 from the state of its row 3, one by one\n\
    .r\x00\x00row 3, no pairs\n\
    .r\x0c\x04row 4, pairs\n\
    .r\x10\x02row 5, pairs\n\
    .r\x12\x02row 6, pairs\n\
    .r\x14\x02row 7, pairs\n\
    .r\x16\x06row 8, pairs\n\
    .r\x1c\x06row 9, pairs\n\
    .r\x06\x02row 2, pairs\n\
    0.\x00\x00Table 5, by a round from zeros\n\
    .e\x26\x14round, pairs\n";

const DI_SAFE_GREE: &[u8] = b"0c\x00\x00DI-SAFE-GREE of 001: Figure 3b, Table 6 and section 4\n\
    0r\x00\x08direct paths, pairs\n\
    .r\x08\x04then 2 1 0, pairs\n\
    .e\x0c\x04then 2 3 0, pairs\n";

fn main(rt: HostRuntime) {
    show_example(&rt, DISAGREE, &disagree(), &disagree_rows());
    show_example(&rt, BAD_GADGET, &bad_gadget(), &bad_gadget_rounds());
    show_example(&rt, BLEEDIN_EDGE, &bleedin_edge(), &bleedin_edge_rows());
    show_example(&rt, DI_SAFE_GREE, &di_safe_gree(), &di_safe_gree_rows());
}
