// The tags that TpmSt has (Part 2, TPM_ST).
ghost use Rattle.std.specs.Prelude.{◌≡◌};
ghost use Rattle.base.specs.Members.{is_in};
ghost use Rattle.table.specs.Tags.{tags};

use base::code::TpmSt;

// Whether TpmSt has a tag.
#[tactic(auto, unfolding(crate::specs::Tags::tags))]
pub fn tag_known(st: TpmSt) -> bool
    ensures { result ≡ is_in st.0 tags }
{
    matches!(
        st.0,
        0xc4 // RSP_COMMAND
            | 0x8000..=0x8002 // NULL, NO_SESSIONS, SESSIONS
            | 0x8014..=0x801a // ATTEST_NV to ATTEST_CREATION
            | 0x801c // ATTEST_NV_DIGEST
            | 0x8021..=0x8025 // CREATION, VERIFIED, AUTH_SECRET, HASHCHECK, AUTH_SIGNED
    )
}
