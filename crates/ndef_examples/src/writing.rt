//! Writes a handover select with two carriers.

use simbegyor::{Builder, Bytes, Form, Message, Power, Record, Tnf, encode};
use std::alloc::Global;

/// The media type of an out-of-band record of Bluetooth Low Energy.
const BLUETOOTH: &[u8] = b"application/vnd.bluetooth.le.oob";

/// The media type of a Wi-Fi credential.
const WIFI: &[u8] = b"application/vnd.wfa.wsc";

/// A message of a select and of the records to which its carriers refer.
pub fn select_of(alloc: Global, bluetooth: &[u8], wifi: &[u8]) -> anyhow::Result<Bytes> {
    let select = Builder::with(alloc)
        .carrier(Power::Active, b"ble")?
        .carrier(Power::Active, b"wifi")?
        .select()?;
    let payload = select.encode(alloc)?;
    let mut records = Vec::new(alloc);
    records.push(Record::new(alloc, Tnf::WellKnown, b"Hs", b"", payload.as_slice())?)?;
    records.push(Record::new(alloc, Tnf::Media, BLUETOOTH, b"ble", bluetooth)?)?;
    records.push(Record::new(alloc, Tnf::Media, WIFI, b"wifi", wifi)?)?;
    Ok(encode(alloc, &Message::new(records)?, Form::Short)?)
}
