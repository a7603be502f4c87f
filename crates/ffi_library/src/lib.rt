// The version of the library for C and Rust.
#![tactic(auto)]

ghost use Rattle.std.specs.Prelude.{◌≡◌};
ghost use Rattle.ffi_library.specs.Fields.{library_version};

// The version of this header; qz_library_version gives that of the library which is linked.
pub const VERSION_MAJOR: u32 = 0;

pub const VERSION_MINOR: u32 = 9;

pub const VERSION_PATCH: u32 = 0;

// The version of the library.
#[repr(C)]
#[derive(Clone, Copy)]
pub struct QzLibraryVersion {
    pub major: u32,
    pub minor: u32,
    pub patch: u32,
}

// The version of the library that is linked. It is QZ_VERSION_MAJOR, MINOR and PATCH where that is the header's own.
#[unsafe(no_mangle)]
pub extern "C" fn qz_library_version() -> QzLibraryVersion
    ensures { result ≡ library_version }
{
    QzLibraryVersion {
        major: VERSION_MAJOR,
        minor: VERSION_MINOR,
        patch: VERSION_PATCH,
    }
}
