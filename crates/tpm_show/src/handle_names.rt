//! Handles by the names that Part 2 gives them.

ghost use Rattle.std.specs.Prelude.{◌≡◌, ◌++◌, OnOk, flat_map, map, option_map};
ghost use Rattle.tpm_show.specs.HandleNames.{handle_name, handle_named, handle_told, handles_from, handles_told};

use crate::piece::{How, LINE_END, LIST_END, Piece, Shape, Value, in_line};
use crate::teller::{Teller, tell_all, tell_asked, tell_pieces};
use tpm_output::named::{Row, look_up};
use tpm_output::names;
use tpm_output::text::Pushed;

// Permanent handles, TPM_RH (Part 2, 7.4).
const PERMANENT: [Row; 32] = names![
    0x40000000 "TPM_RH_SRK",
    0x40000001 "TPM_RH_OWNER",
    0x40000002 "TPM_RH_REVOKE",
    0x40000003 "TPM_RH_TRANSPORT",
    0x40000004 "TPM_RH_OPERATOR",
    0x40000005 "TPM_RH_ADMIN",
    0x40000006 "TPM_RH_EK",
    0x40000007 "TPM_RH_NULL",
    0x40000008 "TPM_RH_UNASSIGNED",
    0x40000009 "TPM_RS_PW",
    0x4000000a "TPM_RH_LOCKOUT",
    0x4000000b "TPM_RH_ENDORSEMENT",
    0x4000000c "TPM_RH_PLATFORM",
    0x4000000d "TPM_RH_PLATFORM_NV",
    0x40000010 "TPM_RH_AUTH_00",
    0x4000010f "TPM_RH_AUTH_FF",
    0x40000110 "TPM_RH_ACT_0",
    0x40000111 "TPM_RH_ACT_1",
    0x40000112 "TPM_RH_ACT_2",
    0x40000113 "TPM_RH_ACT_3",
    0x40000114 "TPM_RH_ACT_4",
    0x40000115 "TPM_RH_ACT_5",
    0x40000116 "TPM_RH_ACT_6",
    0x40000117 "TPM_RH_ACT_7",
    0x40000118 "TPM_RH_ACT_8",
    0x40000119 "TPM_RH_ACT_9",
    0x4000011a "TPM_RH_ACT_A",
    0x4000011b "TPM_RH_ACT_B",
    0x4000011c "TPM_RH_ACT_C",
    0x4000011d "TPM_RH_ACT_D",
    0x4000011e "TPM_RH_ACT_E",
    0x4000011f "TPM_RH_ACT_F",
];

// Kinds of handles by their most significant byte, TPM_HT (Part 2, 7.2).
const KINDS: [Row; 8] = names![
    0x00 "TPM_HT_PCR",
    0x01 "TPM_HT_NV_INDEX",
    0x02 "TPM_HT_HMAC_SESSION",
    0x03 "TPM_HT_POLICY_SESSION",
    0x40 "TPM_HT_PERMANENT",
    0x80 "TPM_HT_TRANSIENT",
    0x81 "TPM_HT_PERSISTENT",
    0x90 "TPM_HT_AC",
];

/// The name of a permanent handle, or that of a handle's kind, where Part 2 has one.
pub(crate) fn handle_name(handle: u32) -> Option<&'static str>
    ensures { option_map (λ name. name.now) result ≡ handle_named handle }
{
    match look_up(&PERMANENT, handle) {
        Some(name) => Some(name),
        None => look_up(&KINDS, handle >> 24),
    }
}

// ---- what is told of them

// Tells a handle, in a line of its own with its number and its name.
#[tactic(auto, using(crate::proofs::Pieces::pieces), unfolding(crate::specs::HandleNames::handle_told))]
fn tell_handle<T: Teller>(teller: &mut T, i: usize, handle: u32) -> Pushed
    ensures { OnOk result
        (T.told teller.new ≡ T.told teller.old ++ flat_map T.marks (handle_told i handle)) }
{
    tell_pieces!(teller; in_line!(Alone Word "handle"), in_line!(Behind Number i as u64),
        Piece::Says(How::Behind, None, Value::Bytes(&handle.to_be_bytes())))?;
    tell_asked(teller, handle_name(handle))?;
    teller.tell(&LINE_END)
}

#[tactic(auto, using(crate::proofs::Pieces::pieces))]
fn tell_each<T: Teller>(teller: &mut T, handles: &[u32]) -> Pushed
    ensures { OnOk result
        (T.told teller.new ≡ T.told teller.old ++ flat_map T.marks (handles_from 1 handles.now)) }
{
    for (before, handle) in handles.iter().enumerate() {
        tell_handle(teller, before + 1, *handle)?;
    }
    Ok(())
}

// Tells the name of a handle as an entry of a list.
fn tell_name<T: Teller>(teller: &mut T, handle: u32) -> Pushed
    ensures { OnOk result
        (T.told teller.new ≡ T.told teller.old ++ T.marks (handle_name handle)) }
{
    match handle_name(handle) {
        Some(name) => teller.tell(&Piece::Says(How::Nowhere, None, Value::Word(name))),
        None => teller.tell(&Piece::Says(How::Nowhere, None, Value::Null)),
    }
}

#[tactic(auto, using(crate::proofs::Pieces::pieces))]
fn tell_names<T: Teller>(teller: &mut T, handles: &[u32]) -> Pushed
    ensures { OnOk result (T.told teller.new
        ≡ T.told teller.old ++ flat_map T.marks (map handle_name handles.now)) }
{
    for handle in handles {
        tell_name(teller, *handle)?;
    }
    Ok(())
}

static HANDLES: Piece<'static> = Piece::Opens(Some("handles"), Shape::List);

static NAMES_BEHIND_HANDLES: [Piece<'static>; 2] = [
    Piece::Closes(Shape::List),
    Piece::Opens(Some("handle_names"), Shape::List),
];

/// Tells handles, and their names in a list of their own.
pub(crate) fn tell_handles<T: Teller>(teller: &mut T, handles: &[u32]) -> Pushed
    ensures { OnOk result
        (T.told teller.new ≡ T.told teller.old ++ flat_map T.marks (handles_told handles.now)) }
{
    teller.tell(&HANDLES)?;
    tell_each(teller, handles)?;
    tell_all(teller, &NAMES_BEHIND_HANDLES)?;
    tell_names(teller, handles)?;
    teller.tell(&LIST_END)
}
