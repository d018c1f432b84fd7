//! What several tests share: bytes as hexadecimal texts.
use std::alloc::Global;
use std::test::Fail;

/// The `N` bytes of a hexadecimal text, in which spaces may stand.
pub(crate) fn bytes<const N: usize>(alloc: Global, text: &str) -> Result<[u8; N], Fail> {
    let digits = text.replace(alloc, " ", "")?;
    let mut bytes = [0; N];
    hex::decode_to_slice(digits.as_str(), &mut bytes)?;
    Ok(bytes)
}
