ghost use Rattle.std.specs.Prelude.{◌≡◌, map, IfOk};
ghost use Rattle.demo.specs.Addresses.{bytes_of, of_four, addresses_of, BytesBack, agreed};

use std::alloc::{AllocError, Global};

// Each address as four bytes, the low byte first.
pub fn to_bytes(heap: Global, addresses: &[u32]) -> Result<Vec<u8>, AllocError>
    ensures bytes { IfOk result (λ v. v.items ≡ bytes_of addresses.now) }
    ensures undone { IfOk result (λ v. addresses_of v.items ≡ addresses.now) }
{
    let mut bytes = Vec::new(heap);
    for a in addresses {
        bytes.extend_from_slice(&a.to_le_bytes())?;
    }
    Ok(bytes)
}

// The address that each four bytes are.
fn words(heap: Global, fours: &[[u8; 4]]) -> Result<Vec<u32>, AllocError>
    ensures { IfOk result (λ v. v.items ≡ map of_four fours.now) }
{
    fours
        .iter()
        .map(|four| u32::from_le_bytes(*four))
        .collect(heap)
}

// The addresses that each four bytes are; bytes past the last four are left out.
pub fn from_bytes(heap: Global, bytes: &[u8]) -> Result<Vec<u32>, AllocError>
    ensures addresses { IfOk result (λ v. v.items ≡ addresses_of bytes.now) }
    ensures undone { IfOk result (λ v. BytesBack bytes.now v.items) }
{
    let (fours, _rest) = bytes.as_chunks::<4>();
    words(heap, fours)
}

// How many addresses came back: those that stand where they stood.
pub fn agreeing(sent: &[u32], back: &[u32]) -> usize
    ensures { result ≡ agreed sent.now back.now }
{
    sent.iter().zip(back).filter(|(a, b)| **a == **b).count()
}
