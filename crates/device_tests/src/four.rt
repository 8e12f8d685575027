//! The sizes of the four devices of a store.

use disk_model::{Four, Sizes};
use std::test::Fail;

#[test]
fn devices_have_their_sizes(rt: HostRuntime) -> Result<(), Fail> {
    let sizes = Sizes {
        pages: 16,
        capacity: 64,
    };
    let four = Four {
        log: sizes.log_bytes(),
        pages: sizes.pages_bytes(),
        pagelog: sizes.pagelog_bytes(),
        maplog: sizes.maplog_bytes(),
    };
    let shown = format!(in rt.alloc(); "{four:?}")?;
    assert_eq!(rt;
        shown.as_str(),
        "Four { log: 33554432, pages: 16384, pagelog: 65536, maplog: 12288 }"
    );
    Ok(())
}
