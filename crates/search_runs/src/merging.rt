// Merging two runs from the end on: of the two last records that are left, the later is stored behind all that are left.
ghost use Rattle.std.specs.Prelude.{◌≡◌, ◌+◌, ◌-◌, ◌*◌, ◌≤◌, length};
ghost use Rattle.word.specs.Record.{labels, labelled, record_words, RecordsFit};
ghost use Rattle.search_runs.specs.Runs.{second_run, Merged};
ghost use Rattle.search_runs.specs.Merging.{last_above};

use finder::key_of;
use search_store::{copy_label, move_label};
use word::{LOWER, NodeNumber, RECORD};

// Whether there is a last one of the first i records, and its key is above k. (The merge writes the table between two looks, so this takes the words and not
// `Records`.)
fn last_above(table: &[u32], i: usize, k: u64) -> bool
    requires { RecordsFit i table.now }
    ensures { result ≡ last_above (labels table.now) i k }
{
    if i == 0 {
        return false;
    }
    let b = (i - 1) * RECORD;
    k < key_of(table[b], table[b + LOWER])
}

// Merges the two runs, where s has the records of the second.
pub fn merge_back(table: &mut [u32], s: &[u32], main: usize, count: usize)
    requires { (main ≤ count) × RecordsFit count table.old × (count * record_words ≤ main * record_words + length s.now) × (labelled s.now (count - main) ≡ second_run table.old main count) }
    ensures { Merged table.old main count table.new }
{
    let mut i = main;
    for j in (0..count - main).rev() {
        let b = j * RECORD;
        let k = key_of(s[b], s[b + LOWER]);
        // The place moves as far as the keys say, which no range knows.
        while last_above(table, i, k) {
            i -= 1;
            let to = i + j + 1;
            move_label(table, NodeNumber(i), NodeNumber(to));
        }
        let to = i + j;
        copy_label(table, s, NodeNumber(j), NodeNumber(to));
    }
}
