//! Show texts of a tree that was made without a script.
use q_device::{Device, Settings};
use q_line::{Line, read_line};
use q_packet::Moment;
use q_session::{show_classes, show_filters, show_qdiscs};
use std::alloc::Global;
use std::test::Fail;

const LINES: &[&[u8]] = &[
    b"tc qdisc add dev eth0 root handle 1: drr",
    b"tc class add dev eth0 parent 1: classid 1:1 drr quantum 1000",
    b"tc filter add dev eth0 parent 1: prio 1 protocol ip flower ip_proto udp dst_port 53 classid 1:1",
    b"tc qdisc add dev eth0 parent 1:1 handle 2: bfifo limit 3000",
];

pub const QDISCS: &str = "qdisc drr 1: root\nqdisc bfifo 2: parent 1:1 limit 3000b\n";

const CLASSES: &str = "class drr 1:1 quantum 1000 asleep\n";

const FILTERS: &str = "filter parent 1: prio 1 protocol ip ip_proto 11 dst_port 53 classid 1:1\n";

/// A new device.
pub fn opened(alloc: Global) -> Result<Device, Fail> {
    let settings = Settings::new(1500, 1000, 0).ok_or("settings")?;
    Ok(Device::open(alloc, settings)?)
}

/// Drops a device: where else one is dropped, each way on which that may happen takes long to prove.
pub fn close(_device: Device) {}

/// Does tc's lines.
pub fn set_up(device: &mut Device) -> Result<(), Fail> {
    for line in LINES {
        let Ok(Line::Tc(command)) = read_line(line) else {
            return Err(Fail::from("a line of tc"));
        };
        device
            .command(command, Moment::zero())
            .map_err(|_| "a command")?;
    }
    Ok(())
}

#[test]
fn texts_of_a_tree(rt: HostRuntime) -> Result<(), Fail> {
    let mut device = opened(rt.alloc())?;
    let answer = expect_texts(rt.alloc(), &mut device);
    close(device);
    answer
}

fn expect_texts(alloc: Global, device: &mut Device) -> Result<(), Fail> {
    set_up(device)?;
    let mut written = Vec::new(alloc);
    show(alloc, device, &mut written)?;
    if is_whole(&written) {
        Ok(())
    } else {
        Err(Fail::from("other texts"))
    }
}

// Writes the three texts one behind the other.
fn show(alloc: Global, device: &Device, written: &mut Vec<u8>) -> Result<(), Fail> {
    let tree = device.tree();
    show_qdiscs(alloc, tree, false, written).map_err(|_| "qdiscs")?;
    show_classes(alloc, tree, written).map_err(|_| "classes")?;
    show_filters(alloc, tree, written).map_err(|_| "filters")?;
    Ok(())
}

fn is_whole(written: &[u8]) -> bool {
    let qdiscs = QDISCS.len();
    let classes = qdiscs.saturating_add(CLASSES.len());
    written.get(..qdiscs) == Some(QDISCS.as_bytes())
        && written.get(qdiscs..classes) == Some(CLASSES.as_bytes())
        && written.get(classes..) == Some(FILTERS.as_bytes())
}
