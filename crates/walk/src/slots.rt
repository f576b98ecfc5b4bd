// Slot lengths, as they are sent or fixed.
ghost use Rattle.std.specs.Prelude.{◌≡◌, [], ◌-◌, ◌≤◌, IfOk, length, drop, replicate};
ghost use Rattle.kernel.specs.Reading.{Stands};
ghost use Rattle.kernel.specs.Answer.{told};
ghost use Rattle.element.specs.Mux.{mux_slot_length_bytes, payload_length_info};
ghost use Rattle.walk.specs.Plan.{slot_by, slots_by};
ghost use Rattle.walk.specs.Parts.{taken};

use kernel::{Cursor, Read, Refusal, Window, fetch};

// Length bytes, added until one is not 255. An element has fewer than 8,192.
#[tactic(auto, using(crate::proofs::Turns::byte_by_byte))]
fn length_bytes(el: &[u8], c: Cursor) -> Result<Read<u32>, Refusal>
    requires { Stands el.now c }
    ensures told { result ≡ told el.now mux_slot_length_bytes c }
    ensures few { IfOk result (λ r. r.value ≤ 2088960) }
{
    let mut slot = Read { value: 0, next: c };
    for i in 0..8192u32 {
        let byte = fetch(el, Window::Open, slot.next, 8)?;
        slot = Read {
            value: slot.value + byte.value,
            next: byte.next,
        };
        if byte.value != 255 {
            return Ok(slot);
        }
    }
    Ok(slot)
}

// The bits of a slot: by length bytes, where they are not fixed.
#[tactic(auto, using(kernel::proofs::Steps::steps), unfolding(crate::specs::Plan::slot_by))]
fn slot_bits(el: &[u8], slot: Option<u32>, c: Cursor) -> Result<Read<u32>, Refusal>
    requires { Stands el.now c }
    ensures { result ≡ told el.now (slot_by slot) c }
{
    match slot {
        Some(width) => Ok(Read {
            value: width,
            next: c,
        }),
        None => {
            let bytes = length_bytes(el, c)?;
            Ok(Read {
                value: 8 * bytes.value,
                next: bytes.next,
            })
        }
    }
}

// The slots of so many streams; zeros stand where there is none.
#[tactic(auto, using(crate::proofs::Turns::slot_by_slot))]
pub fn lengths_of(el: &[u8], slots: &[Option<u32>], c: Cursor) -> Result<Read<[u32; 16]>, Refusal>
    requires { (length slots.now ≤ 16) × Stands el.now c }
    ensures told { taken (length slots.now) result ≡ told el.now (payload_length_info [] (slots_by slots.now)) c }
    ensures zeros { IfOk result (λ ws. drop (length slots.now) ws.value ≡ replicate (16 - length slots.now) 0) }
{
    let mut widths = [0u32; 16];
    let mut next = c;
    for (i, slot) in slots.iter().enumerate() {
        let bits = slot_bits(el, *slot, next)?;
        widths[i] = bits.value;
        next = bits.next;
    }
    Ok(Read {
        value: widths,
        next: next,
    })
}
