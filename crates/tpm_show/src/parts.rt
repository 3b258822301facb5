//! The parts of structures by the names that Part 2 gives them.

ghost use Rattle.std.specs.Prelude.{◌≡◌, ◌++◌, ◌<◌, List, OnOk, codes, flat_map, map};
ghost use Rattle.std.specs.Int.{bytes_high_first};
ghost use Rattle.std.specs.List.{AllByRecursion};
ghost use Rattle.tpm_types.specs.Tpma.{nv_type};
ghost use Rattle.tpm_output.specs.Named.{row_as};
ghost use Rattle.tpm_show.specs.Bits.{bits_set};
ghost use Rattle.tpm_show.specs.Parts.{attribute_parts, attributes_set, digest_entry, digest_value_entry};
ghost use Rattle.tpm_show.specs.Parts.{digest_value_members, public_parts, register_parts, selection_entry};
ghost use Rattle.tpm_show.specs.Parts.{selection_members, set_attribute, symmetric_parts};
ghost use Rattle.tpm_commands.specs.Row.{named};
ghost use Rattle.tpm_show.specs.FieldText.{structure_told, value_told};
ghost use Rattle.tpm_show.specs.Pieces.{Piece};

use crate::bits::is_set;
use crate::field::{Field, HasParts};
use crate::field_text::{begin_structure, end_structure, tell_number, tell_value};
use crate::teller::Teller;
use tpm_output::named::Row;
use tpm_output::names;
use tpm_output::text::Pushed;
use tpm_types::{
    Digest, HashedDigest, NvAttrs, NvPublic, SELECT_BYTES, Selection, SymDef, register,
};
use tpm_wire::{Counted, Duplicate, Wire};

// ---- TPMA_NV (Part 2, 13.4)

// Its bits by their numbers.
const ATTRIBUTES: [Row; 21] = names![
    0 "TPMA_NV_PPWRITE",
    1 "TPMA_NV_OWNERWRITE",
    2 "TPMA_NV_AUTHWRITE",
    3 "TPMA_NV_POLICYWRITE",
    10 "TPMA_NV_POLICY_DELETE",
    11 "TPMA_NV_WRITELOCKED",
    12 "TPMA_NV_WRITEALL",
    13 "TPMA_NV_WRITEDEFINE",
    14 "TPMA_NV_WRITE_STCLEAR",
    15 "TPMA_NV_GLOBALLOCK",
    16 "TPMA_NV_PPREAD",
    17 "TPMA_NV_OWNERREAD",
    18 "TPMA_NV_AUTHREAD",
    19 "TPMA_NV_POLICYREAD",
    25 "TPMA_NV_NO_DA",
    26 "TPMA_NV_ORDERLY",
    27 "TPMA_NV_CLEAR_STCLEAR",
    28 "TPMA_NV_READLOCKED",
    29 "TPMA_NV_WRITTEN",
    30 "TPMA_NV_PLATFORMCREATE",
    31 "TPMA_NV_READ_STCLEAR",
];

// Tells each bit of the table that is set.
fn tell_bits<T: Teller>(teller: &mut T, table: &'static [Row], attrs: u32) -> Pushed
    requires { AllByRecursion (λ bit. bit.0 < 32) table.now }
    ensures { OnOk result (T.told teller.new ≡ T.told teller.old
        ++ flat_map T.marks (flat_map set_attribute (bits_set (map row_as table.now) attrs))) }
{
    for bit in table {
        let (number, name) = *bit;
        if is_set(attrs, number) {
            tell_number(teller, "      ", name, 1)?;
        }
    }
    Ok(())
}

fn tell_attributes<T: Teller>(teller: &mut T, attrs: u32) -> Pushed
    ensures { OnOk result (T.told teller.new
        ≡ T.told teller.old ++ flat_map T.marks (flat_map set_attribute (attributes_set attrs))) }
{
    tell_bits(teller, &ATTRIBUTES, attrs)
}

// The field TPM_NT.
fn kind(attrs: u32) -> u32
    ensures { result ≡ nv_type attrs }
{
    attrs >> 4 & 15
}

/// The field TPM_NT, and each bit that is set.
impl HasParts for NvAttrs {
    ghost told_parts = { attribute_parts };

    #[tactic(auto, using(crate::proofs::Pieces::pieces), unfolding(crate::specs::Parts::attribute_parts))]
    fn tell_parts<T: Teller>(&self, teller: &mut T) -> Pushed {
        let attrs = self.number();
        tell_number(teller, "      ", "TPM_NT", kind(attrs))?;
        tell_attributes(teller, attrs)
    }
}

// ---- TPMS_NV_PUBLIC (Part 2, 13.5)

static NV_INDEX: Field = Field("    ", "nvIndex", "TPMI_RH_NV_INDEX");

static NAME_ALG: Field = Field("    ", "nameAlg", "TPMI_ALG_HASH");

static NV_ATTRIBUTES: Field = Field("    ", "attributes", "TPMA_NV");

static AUTH_POLICY: Field = Field("    ", "authPolicy", "TPM2B_DIGEST");

static DATA_SIZE: Field = Field("    ", "dataSize", "UINT16");

/// The members, which are those of a TPM2B_NV_PUBLIC.
impl HasParts for NvPublic {
    ghost told_parts = { public_parts };

    fn tell_parts<T: Teller>(&self, teller: &mut T) -> Pushed {
        NV_INDEX.tell(teller, &self.index)?;
        NAME_ALG.tell(teller, &self.alg)?;
        NV_ATTRIBUTES.tell_structure(teller, &self.attrs)?;
        AUTH_POLICY.tell(teller, &self.policy)?;
        DATA_SIZE.tell(teller, &self.data_size)
    }
}

// ---- lists

/// An entry of a list.
trait Entry {
    /// What is told of it.
    ghost told_entry: { Self → List Piece };

    /// Tells it.
    fn tell_entry<T: Teller>(&self, teller: &mut T) -> Pushed
        ensures { OnOk result (T.told teller.new
            ≡ T.told teller.old ++ flat_map T.marks (told_entry self.now)) };
}

/// The entries.
impl<E: Wire + Default + Duplicate + Drop + Entry, const LEAST: usize, const MOST: usize> HasParts
    for Counted<E, LEAST, MOST> {
    ghost told_parts = { λ entries. flat_map E.told_entry entries };

    fn tell_parts<T: Teller>(&self, teller: &mut T) -> Pushed {
        let entries = self.as_slice();
        for entry in entries {
            entry.tell_entry(teller)?;
        }
        Ok(())
    }
}

// ---- TPML_PCR_SELECTION (Part 2, 10.9.7)

static SELECTIONS: Field = Field("    ", "pcrSelections", "TPMS_PCR_SELECTION");

static HASH: Field = Field("      ", "hash", "TPMI_ALG_HASH");

static SIZE_OF_SELECT: Field = Field("      ", "sizeofSelect", "UINT8");

static SELECT: Field = Field("      ", "pcrSelect", "BYTE");

// Tells each register that is selected.
#[tactic(auto, unfolding(crate::specs::Parts::selected_registers))]
fn tell_registers<T: Teller>(teller: &mut T, selection: &Selection) -> Pushed
    ensures { OnOk result (T.told teller.new
        ≡ T.told teller.old ++ flat_map T.marks (register_parts selection.now.select)) }
{
    for number in 0..24 {
        if selection.is_selected(register(number)) {
            tell_number(teller, "        ", "PCR", number)?;
        }
    }
    Ok(())
}

fn tell_select<T: Teller>(teller: &mut T, selection: &Selection) -> Pushed
    ensures { OnOk result (T.told teller.new ≡ T.told teller.old
        ++ flat_map T.marks (structure_told (codes "      ")
        (named (codes "pcrSelect") (codes "BYTE"))
        selection.now.select (register_parts selection.now.select))) }
{
    begin_structure(teller, &SELECT, &selection.select)?;
    tell_registers(teller, selection)?;
    end_structure(teller)
}

/// The members.
impl HasParts for Selection {
    ghost told_parts = { selection_members };

    fn tell_parts<T: Teller>(&self, teller: &mut T) -> Pushed {
        HASH.tell(teller, &self.hash)?;
        SIZE_OF_SELECT.tell(teller, &(SELECT_BYTES as u8))?;
        tell_select(teller, self)
    }
}

impl Entry for Selection {
    ghost told_entry = { selection_entry };

    fn tell_entry<T: Teller>(&self, teller: &mut T) -> Pushed {
        SELECTIONS.tell_structure(teller, self)
    }
}

// ---- TPML_DIGEST (Part 2, 10.9.5)

static DIGESTS: Field = Field("    ", "digests", "TPM2B_DIGEST");

impl Entry for Digest {
    ghost told_entry = { digest_entry };

    fn tell_entry<T: Teller>(&self, teller: &mut T) -> Pushed {
        DIGESTS.tell(teller, self)
    }
}

// ---- TPML_DIGEST_VALUES (Part 2, 10.9.6)

static HASHED_DIGESTS: Field = Field("    ", "digests", "TPMT_HA");

static HASH_ALG: Field = Field("      ", "hashAlg", "TPMI_ALG_HASH");

static HASH_DIGEST: Field = Field("      ", "digest", "TPMU_HA");

/// The members.
impl HasParts for HashedDigest {
    ghost told_parts = { digest_value_members };

    fn tell_parts<T: Teller>(&self, teller: &mut T) -> Pushed {
        let hash = self.hash();
        HASH_ALG.tell(teller, &hash)?;
        tell_value(teller, &HASH_DIGEST, self.digest())
    }
}

impl Entry for HashedDigest {
    ghost told_entry = { digest_value_entry };

    fn tell_entry<T: Teller>(&self, teller: &mut T) -> Pushed {
        HASHED_DIGESTS.tell_structure(teller, self)
    }
}

// ---- TPMT_SYM_DEF (Part 2, 11.1.6)

static ALGORITHM: Field = Field("    ", "algorithm", "TPMI_ALG_SYM");

static KEY_BITS: Field = Field("    ", "keyBits", "TPMU_SYM_KEY_BITS");

static MODE: Field = Field("    ", "mode", "TPMU_SYM_MODE");

// TPM_ALG_ID (Part 2, 6.3)
const AES: u16 = 0x0006;

const XOR: u16 = 0x000A;

const NULL: u16 = 0x0010;

const CFB: u16 = 0x0043;

fn tell_algorithm<T: Teller>(teller: &mut T, n: u16) -> Pushed
    ensures { OnOk result (T.told teller.new ≡ T.told teller.old ++ flat_map T.marks
        (value_told (codes "    ") (named (codes "algorithm") (codes "TPMI_ALG_SYM"))
        (bytes_high_first 2 n))) }
{
    ALGORITHM.tell(teller, &n)
}

/// The members, as far as the algorithm has them.
impl HasParts for SymDef {
    ghost told_parts = { symmetric_parts };

    #[tactic(auto, unfolding(tpm_types::specs::Tpmt::sym_def, tpm_types::specs::Tpmt::algorithm, tpm_types::specs::Tpmt::mode))]
    fn tell_parts<T: Teller>(&self, teller: &mut T) -> Pushed {
        match self {
            SymDef::Null => tell_algorithm(teller, NULL),
            SymDef::Aes(bits) => {
                tell_algorithm(teller, AES)?;
                KEY_BITS.tell(teller, bits)?;
                MODE.tell(teller, &CFB)
            }
            SymDef::Xor(alg) => {
                tell_algorithm(teller, XOR)?;
                KEY_BITS.tell(teller, alg)
            }
        }
    }
}
