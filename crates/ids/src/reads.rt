// What the calls that read ask of the items of one table.
ghost use Rattle.std.specs.Prelude.{Ok, ◌≡◌, map, true};
ghost use Rattle.lists.specs.Defs.{all, first, maybe, optional};
ghost use Rattle.tables.specs.Table as T;
ghost use Rattle.ids_state.specs.Formed as F;
ghost use Rattle.ids_rules.specs.View as W;
ghost use Rattle.ids_rules.specs.Values.{has_cid, has_seq};
ghost use Rattle.ids_rules.specs.Calls.{says, says2};
ghost use Rattle.ids.specs.Reading.{found_answer_of, frame_of, item_answer_of, item_view};
ghost use Rattle.ids.specs.Results.{found_answer, frame_answer, item_answer};

use crate::answers::Frame;
use tables::Item;
use values::{ConnectionId, Refusal, ResetToken};

fn with_seq(items: &[Item], seq: u64) -> Option<Item>
    ensures { result ≡ optional (first (T.has_seq seq) items.now) }
{
    let i = tables::seek_seq(items, seq)?;
    Some(items[i])
}

// The item with the sequence.
pub fn get(items: &[Item], seq: u64) -> Result<Option<Item>, Refusal>
    requires { all F.item_formed_of items.now ≡ true }
    ensures { item_answer result ≡ item_answer_of (maybe (first (has_seq seq) (map item_view items.now)) says2 (λ x. says (W.Whole x))) }
{
    let x = with_seq(items, seq).ok_or(Refusal::InternalError)?;
    Ok(Some(x))
}

// The first item with the ID.
pub fn find(items: &[Item], cid: ConnectionId) -> Option<Item>
    requires { all F.item_formed_of items.now ≡ true }
    ensures { found_answer (Ok result) ≡ found_answer_of (says (maybe (first (has_cid cid) (map item_view items.now)) W.Nothing (λ x. W.Found x.seq x.path))) }
{
    let i = tables::seek_cid(items, cid)?;
    Some(items[i])
}

// The frame that announces the source ID with the sequence.
pub fn frame(items: &[Item], retire_prior_to: u64, seq: u64) -> Result<Frame, Refusal>
    ensures { frame_answer result ≡ frame_of (maybe (first (has_seq seq) (map item_view items.now)) says2 (λ x. maybe x.token says2 (λ k. says (W.Frame seq retire_prior_to x.cid k)))) }
{
    let x = with_seq(items, seq).ok_or(Refusal::InternalError)?;
    if !x.token.present {
        return Err(Refusal::InternalError);
    }
    let bytes = x.token.bytes;
    Ok(Frame {
        seq,
        retire_prior_to,
        cid: x.cid,
        token: ResetToken { bytes },
    })
}
