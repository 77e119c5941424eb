//! An entry as a line.

use json::Writer;
use pgp_ids::{
    BucketAlg, BucketSpec, DeviceEpoch, DeviceWeight, Entry, Incremental, Info, LogEntry, OsdId,
    Part, PoolKind, PoolSizes, PoolSpec, Report, Seq, TempList,
};
use pgp_lines::{Format, Op};
use pgp_text::{Json, write_field, write_pair};
use std::alloc::{AllocError, Global};

/// The line of version 3 that gives this entry, without a line feed. Empty lists are left out.
///
/// That it reads back as the entry is not promised: who writes it reads it.
pub fn entry_line(alloc: Global, entry: &Entry) -> Result<Vec<u8>, AllocError> {
    let mut out = Writer::new(Vec::new(alloc));
    out.begin_object()?;
    write_field(&mut out, alloc, "op", &Op::of(entry).name())?;
    write_field(&mut out, alloc, "v", &Format::Three.number())?;
    match entry {
        Entry::Inc(inc) => write_inc(&mut out, alloc, inc)?,
        Entry::Info(info) => write_info(&mut out, alloc, info)?,
        Entry::Entries(report) => write_report(&mut out, alloc, report)?,
        Entry::Close => {}
    }
    out.end_object()?;
    Ok(out.into_inner())
}

fn write_inc(out: &mut Writer, alloc: Global, inc: &Incremental) -> Result<(), AllocError> {
    write_field(out, alloc, "after", &inc.after)?;
    write_field(out, alloc, "epoch", &inc.epoch)?;
    if let Some(buckets) = &inc.crush {
        write_list(out, alloc, "crush", buckets, write_bucket)?;
    }
    write_change(out, alloc, "pools", &inc.pools, write_pool)?;
    write_change(out, alloc, "sizes", &inc.sizes, write_sizes)?;
    write_change(out, alloc, "temp", &inc.temp, write_temp)?;
    write_change(out, alloc, "up", &inc.up, write_osd)?;
    write_change(out, alloc, "down", &inc.down, write_osd)?;
    write_change(out, alloc, "gone", &inc.gone, write_osd)?;
    write_change(out, alloc, "weight", &inc.weight, write_weight)?;
    write_change(out, alloc, "up_thru", &inc.up_thru, write_epoch)?;
    write_change(out, alloc, "lost", &inc.lost, write_epoch)
}

fn write_info(out: &mut Writer, alloc: Global, info: &Info) -> Result<(), AllocError> {
    write_field(out, alloc, "pg", &info.pg)?;
    write_field(out, alloc, "from", &info.member)?;
    write_field(out, alloc, "stamp", &info.stamp)?;
    write_field(out, alloc, "les", &info.les)?;
    write_field(out, alloc, "history_les", &info.history_les)?;
    write_field(out, alloc, "last_epoch_clean", &info.last_epoch_clean)?;
    write_field(out, alloc, "last_update", &info.last_update)?;
    write_field(out, alloc, "log_tail", &info.log_tail)?;
    write_field(out, alloc, "complete", &info.complete)
}

fn write_report(out: &mut Writer, alloc: Global, report: &Report) -> Result<(), AllocError> {
    write_field(out, alloc, "pg", &report.pg)?;
    write_field(out, alloc, "from", &report.member)?;
    write_field(out, alloc, "stamp", &report.stamp)?;
    write_list(out, alloc, "log", &report.log, write_log_entry)
}

/// The field of a list, unless that is empty.
fn write_change<T, F: Fn(&mut Writer, Global, &T) -> Result<(), AllocError>>(
    out: &mut Writer,
    alloc: Global,
    key: &str,
    items: &Seq<T>,
    write: F,
) -> Result<(), AllocError>
    requires { F.IsAlwaysCallable write }
{
    if items.is_empty() {
        return Ok(());
    }
    write_list(out, alloc, key, items, write)
}

fn write_list<T, F: Fn(&mut Writer, Global, &T) -> Result<(), AllocError>>(
    out: &mut Writer,
    alloc: Global,
    key: &str,
    items: &Seq<T>,
    write: F,
) -> Result<(), AllocError>
    requires { F.IsAlwaysCallable write }
{
    out.key(key)?;
    out.begin_array()?;
    for item in items.as_slice() {
        write(out, alloc, item)?;
    }
    out.end_array()
}

fn write_osd(out: &mut Writer, _alloc: Global, osd: &OsdId) -> Result<(), AllocError> {
    out.u64(u64::from(osd.number()))
}

fn write_weight(out: &mut Writer, _alloc: Global, it: &DeviceWeight) -> Result<(), AllocError> {
    write_pair(out, u64::from(it.osd.number()), u64::from(it.weight))
}

fn write_epoch(out: &mut Writer, _alloc: Global, it: &DeviceEpoch) -> Result<(), AllocError> {
    let (osd, epoch) = (it.osd.number(), it.epoch.number());
    write_pair(out, u64::from(osd), u64::from(epoch))
}

fn write_sizes(out: &mut Writer, _alloc: Global, sizes: &PoolSizes) -> Result<(), AllocError> {
    out.begin_array()?;
    out.u64(u64::from(sizes.pool.number()))?;
    out.u64(u64::from(sizes.size))?;
    out.u64(u64::from(sizes.min_size))?;
    out.end_array()
}

fn write_temp(out: &mut Writer, alloc: Global, temp: &TempList) -> Result<(), AllocError> {
    out.begin_array()?;
    out.u64(u64::from(temp.pg.pool.number()))?;
    out.u64(u64::from(temp.pg.pg))?;
    temp.osds.write(out, alloc)?;
    out.end_array()
}

fn write_log_entry(out: &mut Writer, _alloc: Global, entry: &LogEntry) -> Result<(), AllocError> {
    out.begin_array()?;
    out.u64(u64::from(entry.version.epoch.number()))?;
    out.u64(u64::from(entry.version.v))?;
    out.string(entry.change.name())?;
    out.string(entry.object.as_str())?;
    out.end_array()
}

fn write_pool(out: &mut Writer, alloc: Global, pool: &PoolSpec) -> Result<(), AllocError> {
    out.begin_object()?;
    write_field(out, alloc, "id", &pool.id.number())?;
    write_field(out, alloc, "pg_num", &usize::from(pool.pg_num))?;
    write_kind(out, alloc, &pool.kind)?;
    write_field(out, alloc, "size", &pool.size)?;
    write_field(out, alloc, "min_size", &pool.min_size)?;
    write_field(out, alloc, "leaf", &pool.leaf)?;
    out.end_object()
}

fn write_kind(out: &mut Writer, alloc: Global, kind: &PoolKind) -> Result<(), AllocError> {
    match kind {
        PoolKind::Replicated => write_field(out, alloc, "kind", &"replicated"),
        PoolKind::Erasure { k } => {
            write_field(out, alloc, "kind", &"erasure")?;
            write_field(out, alloc, "k", k)
        }
        PoolKind::Grouped { groups } => {
            write_field(out, alloc, "kind", &"grouped")?;
            out.key("groups")?;
            write_parts(out, groups.places())
        }
    }
}

fn write_parts(out: &mut Writer, parts: &[Option<Part>]) -> Result<(), AllocError> {
    out.begin_array()?;
    for part in parts.iter().flatten() {
        write_part(out, part)?;
    }
    out.end_array()
}

/// The slots of a part, and how many of them it needs.
fn write_part(out: &mut Writer, part: &Part) -> Result<(), AllocError> {
    out.begin_array()?;
    out.begin_array()?;
    for slot in 0..16 {
        if part.slots.has(slot) {
            out.u64(u64::from(slot))?;
        }
    }
    out.end_array()?;
    out.u64(u64::from(part.least))?;
    out.end_array()
}

fn write_bucket(out: &mut Writer, alloc: Global, bucket: &BucketSpec) -> Result<(), AllocError> {
    out.begin_object()?;
    out.key("id")?;
    out.i64(i64::from(bucket.id))?;
    write_field(out, alloc, "type", &bucket.kind)?;
    let alg = match bucket.alg {
        BucketAlg::Uniform => "uniform",
        BucketAlg::List => "list",
        BucketAlg::Straw2 => "straw2",
    };
    write_field(out, alloc, "alg", &alg)?;
    write_list(out, alloc, "items", &bucket.items, write_item)?;
    if bucket.alg != BucketAlg::Uniform {
        write_list(out, alloc, "weights", &bucket.weights, write_item_weight)?;
    }
    out.end_object()
}

fn write_item(out: &mut Writer, _alloc: Global, item: &i32) -> Result<(), AllocError> {
    out.i64(i64::from(*item))
}

fn write_item_weight(out: &mut Writer, _alloc: Global, weight: &u32) -> Result<(), AllocError> {
    out.u64(u64::from(*weight))
}
