// Where each part stands in a file of format 1, or else of format 2.

ghost use Rattle.std.specs.Prelude.{◌≡◌, ◌<◌, ◌≤◌};
ghost use Rattle.node_image.specs.Parts.{layout_of, start};
ghost use Rattle.node_image.specs.Parts.Part.{block, head, node};

/// Where the head of a version stands.
pub fn head_offset(format: u8, version: u8) -> u64
    ensures { result ≡ start (layout_of format) (head version) }
{
    if format == 1 {
        64 * u64::from(version)
    } else {
        512 * u64::from(version)
    }
}

/// Where node `n` of a version stands. Nodes are numbered from 1.
pub fn node_offset(format: u8, n: u32, version: u8) -> u64
    requires { 1 ≤ n }
    ensures { result ≡ start (layout_of format) (node n version) }
{
    let place = 2 * (u64::from(n) - 1) + u64::from(version);
    if format == 1 {
        4096 + 66 * place
    } else {
        1024 + 512 * place
    }
}

/// Where a block of a version stands. Blocks are numbered from 0.
pub fn block_offset(format: u8, k: u32, version: u8) -> u64
    ensures { result ≡ start (layout_of format) (block k version) }
{
    let place = 2 * u64::from(k) + u64::from(version);
    if format == 1 {
        40960 + 4096 * place
    } else {
        266240 + 4096 * place
    }
}
