//! Tests of what no contract says, and of permissions at a number.

use crate::file_type::FileType;
use crate::permissions::Permissions;

#[test]
fn the_text_of_a_kind(rt: HostRuntime) {
    let alloc = rt.alloc();
    let text = format!(in alloc; "{:?}", FileType::of_mode(0o100644)).expect(&rt, "memory");
    assert_eq!(rt;
        text.as_str(),
        "FileType { is_file: true, is_dir: false, is_symlink: false, .. }"
    );
    let text = format!(in alloc; "{:?}", FileType::of_mode(0o040755)).expect(&rt, "memory");
    assert_eq!(rt;
        text.as_str(),
        "FileType { is_file: false, is_dir: true, is_symlink: false, .. }"
    );
    let text = format!(in alloc; "{:?}", FileType::of_mode(0o120777)).expect(&rt, "memory");
    assert_eq!(rt;
        text.as_str(),
        "FileType { is_file: false, is_dir: false, is_symlink: true, .. }"
    );
}

#[test]
fn permissions_to_write(rt: HostRuntime) {
    let mut permissions = Permissions::from_mode(0o444);
    assert!(rt; permissions.readonly());
    permissions.set_readonly(false);
    assert_eq!(rt; permissions.mode(), 0o666);
    assert!(rt; !permissions.readonly());
    permissions.set_readonly(true);
    assert_eq!(rt; permissions.mode(), 0o444);
    permissions.set_mode(0o100640);
    assert_eq!(rt; permissions.mode(), 0o100640);
}
