//! Converts the JSON of a payment to BCS and back, and embeds the payment in other JSON.
#![tactic(auto)]

use bcs_codec::{Limits, Registry, Shown, from_bcs, read_value, to_bcs};
use serde::Serialize;

#[derive(Drop, Serialize)]
struct Receipt<'a> {
    number: u32,
    payment: Shown<'a>,
}

fn main(rt: HostRuntime) -> anyhow::Result<()> {
    let (alloc, limits) = (rt.alloc(), Limits::standard());
    let registry = Registry::read(
        alloc,
        br#"{"Payment":{"STRUCT":[{"to":"STR"},{"amount":"U64"}]}}"#,
    )?;
    let format = registry.read_format(alloc, br#"{"TYPENAME":"Payment"}"#)?;
    let spelled = br#"{"to":"bob","amount":7}"#;
    let bytes = to_bcs(alloc, &registry, &format, &limits, spelled)?;
    let text = from_bcs(alloc, &registry, &format, &limits, &bytes)?;
    println!(rt; "{} {}", hex::encode(alloc, &bytes)?, text)?;

    let value = read_value(alloc, &registry, &format, &limits, spelled)?;
    if let Some(payment) = Shown::new(alloc, &registry, &format, &value) {
        let receipt = Receipt { number: 1, payment };
        println!(rt; "{}", serde_json::to_string(alloc, &receipt)?)?;
    }
    Ok(())
}
