// The naming pass: which blocks stay selectable.
#![tactic(auto)]

ghost use Rattle.std.specs.Prelude.{◌≡◌, false, ◌*◌, ◌≤◌, length};
ghost use Rattle.law_base.specs.Rules.{◌⇒◌, ◌∣◌};
ghost use Rattle.rows.specs.Table.{step};
ghost use Rattle.rows.specs.Rows.{block};
ghost use Rattle.text_name.specs.Names.{unselected, name_all};

use rows::{Block, put_row, row_at};
use text_name::is_header;

// One row of the pass: what a header leaves to the block after it.
#[tactic(auto, unfolding(text_name::specs::Names::unselected))]
fn name_row(header: bool, prefixed: bool, r: Block) -> Block
    ensures { result ≡ (header ⇒ r ∣ prefixed ⇒ unselected r ∣ r) }
{
    if prefixed && !header {
        r.with_mark(0)
    } else {
        r
    }
}

// The naming pass over the first n rows; our crates alone call it.
pub fn name_blocks(tape: &[u8], blocks: &mut [u64], n: usize)
    requires { n * block.width ≤ length blocks.old }
    ensures { blocks.new ≡ step block n (name_all tape.now false) blocks.old }
{
    let mut prefixed = false;
    for i in 0..n {
        let r = row_at(blocks, i);
        let header = is_header(tape, r);
        put_row(blocks, i, name_row(header, prefixed, r));
        prefixed = header;
    }
}
