//! A summary in words.

ghost use Rattle.std.specs.Prelude.{◌≡◌, ◌++◌, flat_map, IfOk, OnOk, string_bytes};
ghost use Rattle.pgp_whole.specs.SummaryText.{between_part, device_line, device_lines, frees_part, groups_part, summary_words, verdict_line};

use super::devices::DeviceWaits;
use super::summary::Summary;
use pgp_group_words::{EpochOffset, plural};
use pgp_ids::Verdict;
use std::alloc::{AllocError, Global};

/// The verdicts, in the order in which they are told.
const VERDICTS: [Verdict; 8] = [
    Verdict::NoPrimary,
    Verdict::Down,
    Verdict::Waiting,
    Verdict::Incomplete,
    Verdict::Short,
    Verdict::NeedLog,
    Verdict::NeedUpThru,
    Verdict::Serve,
];

impl Summary {
    /// What there is to say of all groups, in lines that each end in a line feed.
    #[tactic(auto, unfolding(crate::specs::SummaryText::summary_words, crate::specs::SummaryText::total_line))]
    pub fn words(&self, alloc: Global, offset: EpochOffset) -> Result<String, AllocError>
        ensures { IfOk result (λ text. string_bytes text ≡ summary_words self.now offset) }
    {
        let mut text = String::new(alloc);
        let groups = self.verdicts.len();
        let noun = plural(groups, "group", "groups");
        let epoch = offset.cluster_epoch(self.epoch);
        writeln!(text, "{groups} {noun} at epoch {epoch}")?;
        put_verdicts(self, &VERDICTS, &mut text)?;
        put_devices(self.devices.as_slice(), &mut text)?;
        Ok(text)
    }
}

/// How many groups have which of the verdicts.
fn put_verdicts(
    summary: &Summary,
    verdicts: &[Verdict],
    text: &mut String,
) -> Result<(), AllocError>
    ensures { OnOk result (string_bytes text.new
        ≡ string_bytes text.old ++ flat_map (verdict_line summary.now.verdicts) verdicts.now) }
{
    for verdict in verdicts {
        put_verdict(summary, *verdict, text)?;
    }
    Ok(())
}

/// How many groups have this verdict, where some have it.
#[tactic(auto, unfolding(crate::specs::SummaryText::verdict_line))]
fn put_verdict(summary: &Summary, verdict: Verdict, text: &mut String) -> Result<(), AllocError>
    ensures { OnOk result (string_bytes text.new
        ≡ string_bytes text.old ++ verdict_line summary.now.verdicts verdict) }
{
    let count = summary.count(verdict);
    if count == 0 {
        return Ok(());
    }
    writeln!(text, "  {} {count}", verdict.name())
}

/// For which devices groups wait.
#[tactic(auto, unfolding(crate::specs::SummaryText::device_lines))]
fn put_devices(devices: &[DeviceWaits], text: &mut String) -> Result<(), AllocError>
    ensures { OnOk result (string_bytes text.new ≡ string_bytes text.old ++ device_lines devices.now) }
{
    if devices.is_empty() {
        return Ok(());
    }
    text.push_str("\n")?;
    put_each_device(devices, text)
}

fn put_each_device(devices: &[DeviceWaits], text: &mut String) -> Result<(), AllocError>
    ensures { OnOk result (string_bytes text.new
        ≡ string_bytes text.old ++ flat_map device_line devices.now) }
{
    for device in devices {
        put_device(device, text)?;
    }
    Ok(())
}

/// How many groups a device blocks, how many of them it frees alone, and how many wait to hear from it.
#[tactic(auto, unfolding(crate::specs::SummaryText::device_line))]
fn put_device(device: &DeviceWaits, text: &mut String) -> Result<(), AllocError>
    ensures { OnOk result (string_bytes text.new ≡ string_bytes text.old ++ device_line device.now) }
{
    write!(text, "osd.{} ", device.osd.number())?;
    put_groups("blocks", device.blocks.0, text)?;
    put_frees(device.frees.0, text)?;
    text.push_str(between(device))?;
    put_groups("has yet to be heard by", device.awaited.0, text)?;
    text.push_str("\n")
}

/// What a device does to this many groups, where there are some.
#[tactic(auto, unfolding(crate::specs::SummaryText::groups_part))]
fn put_groups(does: &str, count: usize, text: &mut String) -> Result<(), AllocError>
    ensures { OnOk result (string_bytes text.new ≡ string_bytes text.old ++ groups_part does.now count) }
{
    if count == 0 {
        return Ok(());
    }
    write!(text, "{does} {count} {}", plural(count, "group", "groups"))
}

#[tactic(auto, unfolding(crate::specs::SummaryText::frees_part))]
fn put_frees(count: usize, text: &mut String) -> Result<(), AllocError>
    ensures { OnOk result (string_bytes text.new ≡ string_bytes text.old ++ frees_part count) }
{
    if count == 0 {
        return Ok(());
    }
    write!(text, ", and alone frees {count}")
}

/// What stands between the groups that the device blocks and those that wait to hear from it.
#[tactic(auto, unfolding(crate::specs::SummaryText::between_part))]
fn between(device: &DeviceWaits) -> &'static str
    ensures { result.now ≡ between_part device.now }
{
    if device.blocks.0 > 0 && device.awaited.0 > 0 {
        ", and "
    } else {
        ""
    }
}
