// The rows of the published examples as schedules, a row to a line, each the bytes of its definition.
ghost use Rattle.std.specs.Prelude.{◌≡◌, [], ◌∷◌, ◌++◌};
ghost use Rattle.theorems.specs.Published.{pairs_of_rows, disagree_two_first, disagree_one_first, bad_gadget_rounds};
ghost use Rattle.theorems.specs.Published.{table4, edge_two_first, bleedin_round, di_safe_gree_rows};

// DISAGREE, twice: the direct paths, then 1 hears 2 and 2 hears 1, or the other way round.
pub fn disagree_rows() -> [u8; 16]
    ensures { result ≡ pairs_of_rows disagree_one_first ++ pairs_of_rows disagree_two_first }
{
    *b"\x01\x00\x02\x00\x01\x02\x02\x01\
       \x01\x00\x02\x00\x02\x01\x01\x02"
}

// BAD GADGET: three rounds, each of 12 bytes.
pub fn bad_gadget_rounds() -> [u8; 36]
    ensures { result ≡ pairs_of_rows bad_gadget_rounds }
{
    *b"\x01\x00\x02\x00\x03\x00\x01\x03\x02\x01\x03\x02\
       \x01\x00\x02\x00\x03\x00\x01\x03\x02\x01\x03\x02\
       \x01\x00\x02\x00\x03\x00\x01\x03\x02\x01\x03\x02"
}

// BLEEDIN-EDGE: Table 4, a line for each row; its row 3 in the other order, for one by one; and a round of all pairs.
pub fn bleedin_edge_rows() -> [u8; 58]
    ensures { result ≡ pairs_of_rows table4 ++ pairs_of_rows (edge_two_first ∷ bleedin_round ∷ []) }
{
    *b"\x01\x00\x03\x00\x04\x00\
       \x02\x03\
       \x04\x02\x02\x04\
       \x02\x01\x01\x02\
       \x02\x04\
       \x03\x02\
       \x04\x03\
       \x02\x01\x02\x03\x02\x04\
       \x01\x02\x03\x02\x04\x02\
       \x02\x04\x04\x02\
       \x01\x00\x03\x00\x04\x00\x04\x03\x02\x04\x01\x02\x02\x01\x02\x03\x03\x02\x04\x02"
}

// DI-SAFE-GREE, section 4: the direct paths, then (2 1 0), then (2 3 0).
pub fn di_safe_gree_rows() -> [u8; 16]
    ensures { result ≡ pairs_of_rows di_safe_gree_rows }
{
    *b"\x01\x00\x02\x00\x03\x00\x03\x02\
       \x02\x01\x03\x02\
       \x02\x03\x03\x02"
}
