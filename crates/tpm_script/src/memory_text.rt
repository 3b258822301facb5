//! NV memory as lines.

ghost use Rattle.std.specs.Prelude.{◌≡◌, ◌++◌, OnOk, string_bytes};
ghost use Rattle.tpm_output.specs.Text.{lines_from};
ghost use Rattle.tpm_script.specs.MemoryText.{attributes_text, counter_line, greatest_line, hash_text, index_text};
ghost use Rattle.tpm_script.specs.MemoryText.{memory_text, policy_text, public_text, rest_line, value_text, yes_or_no};

use tpm_nv::{Counter, Counters};
use tpm_output::text::{Pushed, push_shown};
use tpm_types::{Alg, NvPublic};

fn yes_no(whether: bool) -> &'static str
    ensures { result.now ≡ yes_or_no whether }
{
    if whether { "yes" } else { "no" }
}

fn push_value(text: &mut String, value: Option<u64>) -> Pushed
    ensures { OnOk result (string_bytes text.new ≡ string_bytes text.old ++ value_text value) }
{
    match value {
        None => text.push_str("-"),
        Some(value) => write!(text, "{value}"),
    }
}

#[tactic(auto, unfolding(crate::specs::MemoryText::greatest_line))]
fn push_greatest(text: &mut String, greatest: u64) -> Pushed
    ensures { OnOk result (string_bytes text.new
        ≡ string_bytes text.old ++ greatest_line greatest) }
{
    writeln!(text, "greatest {greatest}")
}

#[tactic(auto, using(tpm_output::proofs::Padded::padded), unfolding(crate::specs::MemoryText::index_text))]
fn push_index(text: &mut String, i: usize, index: u32) -> Pushed
    ensures { OnOk result (string_bytes text.new ≡ string_bytes text.old ++ index_text i index) }
{
    write!(text, "counter {i} {index:08x}")
}

#[tactic(auto, unfolding(crate::specs::MemoryText::hash_text))]
fn push_hash(text: &mut String, hash: Alg) -> Pushed
    ensures { OnOk result (string_bytes text.new ≡ string_bytes text.old ++ hash_text hash) }
{
    let hash = hash.name();
    write!(text, " hash {hash}")
}

// Adds TPMA_NV (Part 2, 13.4) in eight hexadecimal digits.
#[tactic(auto, unfolding(crate::specs::MemoryText::attributes_text))]
fn push_attributes(text: &mut String, attributes: u32) -> Pushed
    ensures { OnOk result (string_bytes text.new
        ≡ string_bytes text.old ++ attributes_text attributes) }
{
    write!(text, " attributes {attributes:08x}")
}

#[tactic(auto, unfolding(crate::specs::MemoryText::policy_text))]
fn push_policy(text: &mut String, policy: &[u8]) -> Pushed
    ensures { OnOk result (string_bytes text.new
        ≡ string_bytes text.old ++ policy_text policy.now) }
{
    text.push_str(" policy ")?;
    push_shown(text, policy)
}

// Adds a counter's public area, the one of this number.
fn push_public(text: &mut String, i: usize, public: &NvPublic) -> Pushed
    ensures { OnOk result (string_bytes text.new
        ≡ string_bytes text.old ++ public_text i public.now) }
{
    push_index(text, i, public.index.number())?;
    push_hash(text, public.alg)?;
    push_attributes(text, public.attrs.number())?;
    push_policy(text, public.policy.as_slice())
}

#[tactic(auto, unfolding(crate::specs::MemoryText::rest_line))]
fn push_rest(text: &mut String, has_auth: bool, value: Option<u64>) -> Pushed
    ensures { OnOk result (string_bytes text.new
        ≡ string_bytes text.old ++ rest_line has_auth value) }
{
    let authorization = yes_no(has_auth);
    write!(text, " authorization {authorization} value ")?;
    push_value(text, value)?;
    text.push_str("\n")
}

// Adds the line of a counter, the one of this number.
fn push_counter(text: &mut String, i: usize, counter: &Counter) -> Pushed
    ensures { OnOk result (string_bytes text.new
        ≡ string_bytes text.old ++ counter_line i counter.now) }
{
    push_public(text, i, &counter.public())?;
    push_rest(text, counter.has_auth(), counter.value())
}

// Adds a line for each counter.
fn push_counters(text: &mut String, counters: &[Counter]) -> Pushed
    ensures { OnOk result (string_bytes text.new
        ≡ string_bytes text.old ++ lines_from counter_line 1 counters.now) }
{
    for (before, counter) in counters.iter().enumerate() {
        push_counter(text, before + 1, counter)?;
    }
    Ok(())
}

/// Adds the lines of NV memory.
pub(crate) fn push_memory(text: &mut String, memory: &Counters) -> Pushed
    ensures { OnOk result (string_bytes text.new
        ≡ string_bytes text.old ++ memory_text memory.now) }
{
    push_greatest(text, memory.greatest())?;
    push_counters(text, memory.as_slice())
}
