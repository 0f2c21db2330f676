//! The plan of a chain.
ghost use Rattle.std.specs.Prelude.{◌≡◌, ◌<◌, List, [], ◌∷◌, ◌++◌};
ghost use Rattle.arrayvec.specs.ArrayVec.{array_vec_len};
ghost use Rattle.tox_time.specs.declared.streams.item.Item.{Item as OneItem};
ghost use Rattle.tox_time.specs.streams.Stream.{IsStream};
ghost use Rattle.tox_defs.specs.Flow.{chain_flow};
ghost use Rattle.tox_compile.specs.Normal.{normal_form};
ghost use Rattle.tox_compile.specs.Meaning.{means};

use crate::normal::add;
use crate::plan::Plan;
use arrayvec::ArrayVec;
use tox_defs::{Chain, Op};
use tox_words::Words;

/// The plan of a chain on a link with these words.
pub fn compile(chain: &Chain, words: &Words) -> Plan
    ensures lanes { result.lanes ≡ chain.now.lanes }
    ensures ops { result.ops ≡ normal_form chain.now words.now }
    ensures means { (items : List OneItem) → IsStream items
        → means result words.now items ≡ chain_flow chain.now words.now items }
{
    let mut ops = ArrayVec::new();
    for placed in chain.applied(words).iter() {
        add(&mut ops, &Op::of(&placed.toxic, placed.place));
    }
    Plan::of_ops(chain.lanes(), ops)
}
