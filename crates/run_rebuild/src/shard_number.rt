//! The shard of a row.

ghost use Rattle.std.specs.Prelude.{◌≡◌, ◌<◌, ◌≤◌, ◌+◌, ◌%◌, sum, option_to_list, slice_get};
ghost use Rattle.std.specs.Int.{w128, to_be_bytes, cast_unsigned};
ghost use Rattle.base_values.specs.GhoSchema.Rows.{key_of};
ghost use Rattle.run_rebuild.specs.ShardNumbers.{AreShards, shard_number, spelled_sum, value_sum};

use base_values::Value;

/// A number and the sum of bytes, modulo the number of shards.
fn add_bytes(total: u32, bytes: &[u8], workers: u32) -> u32
    requires workers { (total < workers) × (workers ≤ 16) }
    ensures sum { result ≡ (total + sum bytes.now) % workers }
    ensures below { result < workers }
{
    let mut added = total;
    for byte in bytes {
        added = (added + u32::from(*byte)) % workers;
    }
    added
}

/// A number and the sum of the bytes in which a whole number is spelled, modulo the number of shards.
fn add_number(total: u32, number: i128, workers: u32) -> u32
    requires workers { (total < workers) × (workers ≤ 16) }
    ensures sum { result ≡ (total + (1 + sum (to_be_bytes w128 (cast_unsigned w128 number)))) % workers }
    ensures below { result < workers }
{
    let kind = add_bytes(total, &[1], workers);
    let bytes = number.cast_unsigned().to_be_bytes();
    add_bytes(kind, &bytes, workers)
}

/// A number and the sum of the bytes in which a value is spelled, modulo the number of shards.
fn add_value(total: u32, value: &Value, workers: u32) -> u32
    requires workers { (total < workers) × (workers ≤ 16) }
    ensures sum { result ≡ (total + value_sum value.now) % workers }
    ensures below { result < workers }
{
    match value {
        Value::Null => add_bytes(total, &[0], workers),
        Value::Num(number) => add_number(total, *number, workers),
        Value::Text(text) => {
            let text = text.as_str().as_bytes();
            let total = add_bytes(total, &[2], workers);
            let total = add_bytes(total, &(text.len() as u64).to_be_bytes(), workers);
            add_bytes(total, text, workers)
        }
        Value::Blob(blob) => {
            let total = add_bytes(total, &[3], workers);
            let total = add_bytes(total, &(blob.len() as u64).to_be_bytes(), workers);
            add_bytes(total, blob.as_slice(), workers)
        }
    }
}

/// A number and the sum of the bytes in which the value at a place is spelled, where there is one, modulo the number of shards.
fn add_place(total: u32, place: usize, row: &[Value], workers: u32) -> u32
    requires workers { (total < workers) × (workers ≤ 16) }
    ensures sum { result ≡ (total + spelled_sum (option_to_list (slice_get row.now place))) % workers }
    ensures below { result < workers }
{
    match row.get(place) {
        Some(value) => add_value(total, value, workers),
        None => total,
    }
}

/// The shard of a row, by the values at its clustered key's places. It takes no memory, since each shard asks it of every event.
pub fn shard(places: &[usize], row: &[Value], workers: u32) -> u32
    requires workers { AreShards workers }
    ensures number { result ≡ shard_number workers (key_of places.now row.now) }
    ensures below { result < workers }
{
    let mut total = 0;
    for place in places {
        total = add_place(total, *place, row, workers);
    }
    total
}
