// The known base codes (Part 2, TPM_RC), in Part 2's groups and its order: ranges from a first code to a last one, with their names.
ghost use Rattle.std.specs.Prelude.{◌≡◌};
ghost use Rattle.rc.specs.Known.{fmt1, in_some, is_known, tpm12, ver1, warn};

// Whether a code is a known base code. SUCCESS is what most codes are, and most of what is none lies in no group: both are told here. The
// ranges are asked in two arms for the compiler's sake: it inlines a function with one caller whatever its size, and so it inlines this one alone.
#[tactic(auto, using(crate::proofs::Groups::known_by_group))]
pub fn base_known(code: u32) -> bool
    ensures { result ≡ is_known code }
{
    match code {
        0x000 => true,
        0x001..=0x17F => grouped(code),
        0x900..=0x97F => grouped(code),
        _ => false,
    }
}

// The same by the ranges. The bits above the low seven tell the group, and no other one is looked at.
#[tactic(auto, using(crate::proofs::Groups::known_by_group))]
fn grouped(code: u32) -> bool
    ensures { result ≡ is_known code }
{
    match code {
        0x000..=0x07F => tpm12(code),
        0x100..=0x17F => ver1(code),
        0x080..=0x0FF => fmt1(code),
        0x900..=0x97F => warn(code),
        _ => false,
    }
}

// Format zero of TPM 1.2's kind.
fn tpm12(code: u32) -> bool
    ensures { result ≡ in_some code tpm12 }
{
    matches!(
        code,
        0x000..=0x000 // SUCCESS
        | 0x01E..=0x01E // BAD_TAG
    )
}

// Format zero, errors: RC_VER1, 0x100.
fn ver1(code: u32) -> bool
    ensures { result ≡ in_some code ver1 }
{
    matches!(
        code,
        0x100..=0x101 // INITIALIZE to FAILURE
        | 0x103..=0x103 // SEQUENCE
        | 0x10B..=0x10B // PRIVATE
        | 0x119..=0x119 // HMAC
        | 0x120..=0x121 // DISABLED to EXCLUSIVE
        | 0x124..=0x128 // AUTH_TYPE to PCR_CHANGED
        | 0x12D..=0x131 // UPGRADE to UNBALANCED
        | 0x142..=0x14C // COMMAND_SIZE to NV_DEFINED
        | 0x150..=0x156 // BAD_CONTEXT to READ_ONLY
    )
}

// Format one: RC_FMT1, 0x080.
fn fmt1(code: u32) -> bool
    ensures { result ≡ in_some code fmt1 }
{
    matches!(
        code,
        0x081..=0x085 // ASYMMETRIC to HIERARCHY
        | 0x087..=0x090 // KEY_SIZE to PP
        | 0x092..=0x092 // SCHEME
        | 0x095..=0x098 // SIZE to SELECTOR
        | 0x09A..=0x09D // INSUFFICIENT to POLICY_FAIL
        | 0x09F..=0x0A9 // INTEGRITY to SVN_LIMITED
        | 0x0B0..=0x0B1 // CHANNEL to CHANNEL_KEY
    )
}

// Warnings: RC_WARN, 0x900.
fn warn(code: u32) -> bool
    ensures { result ≡ in_some code warn }
{
    matches!(
        code,
        0x901..=0x90A // CONTEXT_GAP to TESTING
        | 0x910..=0x916 // REFERENCE_H0 to REFERENCE_H6
        | 0x918..=0x91E // REFERENCE_S0 to REFERENCE_S6
        | 0x920..=0x923 // NV_RATE to NV_UNAVAILABLE
    )
}
