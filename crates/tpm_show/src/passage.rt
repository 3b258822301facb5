//! Where a frame stands among the packets of a network.

ghost use Rattle.std.specs.Prelude.{◌≡◌, ◌++◌, IfOk, OnOk, codes, flat_map, option_map, string_bytes};
ghost use Rattle.tpm_show.specs.Passages.{packet_told, passage_told, time_text};
ghost use Rattle.tpm_show.specs.Pieces.{word_told};
ghost use Rattle.tpm_show.specs.declared.piece.How.TheVariants.{Under};

use crate::piece::{LINE_END, in_line, says};
use crate::teller::{Teller, tell_pieces};
use std::alloc::{AllocError, Global};
use tpm_output::text::Pushed;
use tpm_pcap::Stamp;

/// Where a frame stands among the packets of a network.
#[derive(Clone, Copy)]
pub(crate) struct Passage {
    /// How many connections there were so far.
    pub(crate) connection: u64,
    /// The packet in which it ends, if it stands among packets.
    pub(crate) stamp: Option<Stamp>,
}

impl Passage {
    /// Among no packets.
    pub(crate) const NONE: Passage = Passage {
        connection: 0,
        stamp: None,
    };
}

/// How many nanoseconds a second has.
const SECOND: u128 = 1_000_000_000;

// So many nanoseconds in seconds since 1970 began, with nine digits behind the point.
#[tactic(auto, using(tpm_output::proofs::Padded::padded), unfolding(crate::specs::Passages::time_text))]
fn time_text(alloc: Global, time: u128) -> Result<String, AllocError>
    ensures { IfOk result (λ text. string_bytes text ≡ time_text time) }
{
    let seconds = time / SECOND;
    let nanoseconds = time % SECOND;
    format!(in alloc; "{seconds}.{nanoseconds:09}")
}

fn tell_time<T: Teller>(teller: &mut T, time: Option<u128>) -> Pushed
    ensures { OnOk result
        (T.told teller.new ≡ T.told teller.old
        ++ flat_map T.marks (word_told Under (codes "time") (option_map time_text time))) }
{
    let Some(time) = time else {
        return Ok(());
    };
    let text = time_text(teller.alloc(), time)?;
    teller.tell(&says!(Under "time" Word text.as_str()))
}

fn tell_packet<T: Teller>(teller: &mut T, stamp: Stamp, connection: u64) -> Pushed
    ensures { OnOk result (T.told teller.new
        ≡ T.told teller.old ++ flat_map T.marks (packet_told stamp connection)) }
{
    tell_pieces!(teller; in_line!(Alone Word "packet"),
        says!(Behind "packet" Number stamp.packet))?;
    tell_time(teller, stamp.time)?;
    tell_pieces!(teller; says!(Under "connection" Number connection), LINE_END)
}

/// Tells the packet, where there is one.
pub(crate) fn tell_passage<T: Teller>(teller: &mut T, passage: Passage) -> Pushed
    ensures { OnOk result (T.told teller.new
        ≡ T.told teller.old ++ flat_map T.marks (passage_told passage)) }
{
    match passage.stamp {
        Some(stamp) => tell_packet(teller, stamp, passage.connection),
        None => Ok(()),
    }
}
