//! Replies: a status and a text, with the boards of analyses that ended.

ghost use Rattle.std.specs.Prelude.{◌≡◌, ℕ, List, IfOk};
ghost use Rattle.report_text.specs.Refused.{IsOfSource};
ghost use Rattle.smash_run.specs.Analysis.{board_alone, no_witness};
ghost use Rattle.smash_run.specs.Asked.{AsksRefusal};
ghost use Rattle.source_program.specs.Rejections.{IsRefusedFor};
ghost use Rattle.smash_run.specs.steps.Handing.{handed_in};

use bolt_core::board::Board;
use report_text::fault::Refusal;
use report_text::refusal;
use std::alloc::{AllocError, Global};

/// A status and the whole text that is written with it, the board of an analysis that ended, and
/// that of an edit's old source.
#[derive(Drop)]
pub struct Reply {
    pub status: u8,
    pub text: Vec<u8>,
    pub board: Option<Board>,
    pub old: Option<Board>,
}

/// A reply that hands nothing back.
pub fn bare_reply(status: u8, text: Vec<u8>) -> Reply
    ensures status { result.status ≡ status }
    ensures text { result.text ≡ text }
    ensures nothing { handed_in result ≡ no_witness }
{
    Reply {
        status,
        text,
        board: None,
        old: None,
    }
}

/// A reply that hands a board back.
pub fn reply_with_board(status: u8, text: Vec<u8>, board: Board) -> Reply
    ensures status { result.status ≡ status }
    ensures text { result.text ≡ text }
    ensures handed { handed_in result ≡ board_alone board }
{
    Reply {
        status,
        text,
        board: Some(board),
        old: None,
    }
}

/// A refusal with a text that is always the same.
pub fn refused_as(alloc: Global, text: &[u8]) -> Result<Reply, AllocError>
    ensures status { IfOk result (λ a. a.status ≡ 3) }
    ensures text { IfOk result (λ a. a.text.items ≡ text.now) }
    ensures nothing { IfOk result (λ a. handed_in a ≡ no_witness) }
{
    let text = text.to_vec(alloc)?;
    Ok(bare_reply(3, text))
}

/// The refusal of a source.
pub fn refused(alloc: Global, why: &Refusal) -> Result<Reply, AllocError>
    requires { IsOfSource why.now }
    ensures { (bytes : List ℕ) → IsRefusedFor bytes why.now → IfOk result
        (λ a. AsksRefusal bytes a.status a.text.items (handed_in a)) }
{
    let text = refusal(alloc, why)?;
    Ok(bare_reply(3, text))
}
