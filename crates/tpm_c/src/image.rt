//! The image that the data of a record tell, and the nodes of its device path (PC Client Platform Firmware Profile,
//! "UEFI_IMAGE_LOAD_EVENT"; UEFI Specification, "Generic Device Path Structures").

ghost use Rattle.std.specs.Prelude.{◌≡◌};
ghost use Rattle.tpm_event_data.specs.DevicePaths.{as_node, nodes_in};
ghost use Rattle.tpm_event_data.specs.ImageLoads.{as_image, image_load_of};
ghost use Rattle.tpm_c.specs.Images.{image_view, node_view, IsImageTold, IsNodeTold};

use crate::part::TpmPart;
use arrayvec::ArrayVec;
use tpm_event_data::{DeviceNode, Event, ImageLoad, device_path};

/// An image was told.
pub(crate) const IMAGE: u32 = 43;

/// A node was told.
const PATH_NODE: u32 = 44;

/// An image that was loaded: its address in memory, how many bytes it has there, the address that it was linked for,
/// and where its device path lies in the data.
#[repr(C)]
#[derive(Clone, Copy)]
pub struct TpmImage {
    pub address: u64,
    pub size: u64,
    pub link_address: u64,
    pub path: TpmPart,
}

/// A node of a device path: its type, its subtype, and where its data lie.
#[repr(C)]
#[derive(Clone, Copy)]
pub struct TpmPathNode {
    pub kind: u8,
    pub subtype: u8,
    pub value: TpmPart,
}

pub(crate) fn image_view(image: &ImageLoad<'_>) -> TpmImage
    ensures { result ≡ image_view (as_image image.now) }
{
    TpmImage {
        address: image.address,
        size: image.size,
        link_address: image.link_address,
        path: TpmPart {
            at: 32,
            len: image.path.len(),
        },
    }
}

/// Tells the image that these bytes, the data of a record of this type, are, and answers 43; or answers 0 where they
/// are none, or records of the type have none. `view` is then as it was.
#[unsafe(no_mangle)]
pub extern "C" fn tpm_log_image(kind: u32, bytes: &[u8], view: &mut TpmImage) -> u32
    ensures { IsImageTold (image_load_of kind bytes.now) bytes.now
        (record { answer = result; old = view.old; new = view.new }) }
{
    let event = Event {
        register: 0,
        kind,
        digests: ArrayVec::new(),
        event: bytes,
    };
    match event.image_load() {
        Some(Ok(image)) => {
            *view = image_view(&image);
            IMAGE
        }
        _ => 0,
    }
}

fn node_view(node: &DeviceNode<'_>) -> TpmPathNode
    ensures { result ≡ node_view (as_node node.now) }
{
    TpmPathNode {
        kind: node.kind,
        subtype: node.subtype,
        value: TpmPart {
            at: 4,
            len: node.value.len(),
        },
    }
}

/// Tells the first node of the device path that these bytes are, and answers 44; or answers 0 where it has a fault, or
/// there are no bytes. `view` is then as it was. The next node is behind its data.
#[unsafe(no_mangle)]
pub extern "C" fn tpm_log_path_node(bytes: &[u8], view: &mut TpmPathNode) -> u32
    ensures { IsNodeTold (nodes_in bytes.now) bytes.now
        (record { answer = result; old = view.old; new = view.new }) }
{
    match device_path(bytes).next() {
        Some(Ok(node)) => {
            *view = node_view(&node);
            PATH_NODE
        }
        _ => 0,
    }
}
