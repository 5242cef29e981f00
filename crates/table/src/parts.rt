// The rows of the tables, strictly rising by code, in two parts: the first 112 are those of every table, and behind them each table has
// its own.
ghost use Rattle.std.specs.Prelude.{◌≡◌, ◌<◌, get_or, length};
ghost use Rattle.table.specs.Dispatch.{own, table_of};
ghost use Rattle.table.specs.Table.{none};

use crate::revision::Revision;
use crate::row::Row;

// A command's code, its handles and those of its response (Part 3), on a line.
macro_rules! row {
    ($code:literal, $handles:literal, $responses:literal) => {
        Row {
            code: $code,
            handles: $handles,
            responses: $responses,
        }
    };
}

static SHARED: [Row; 112] = [
    row!(0x11f, 2, 0), // NV_UndefineSpaceSpecial
    row!(0x120, 2, 0), // EvictControl
    row!(0x121, 1, 0), // HierarchyControl
    row!(0x122, 2, 0), // NV_UndefineSpace
    row!(0x124, 1, 0), // ChangeEPS
    row!(0x125, 1, 0), // ChangePPS
    row!(0x126, 1, 0), // Clear
    row!(0x127, 1, 0), // ClearControl
    row!(0x128, 1, 0), // ClockSet
    row!(0x129, 1, 0), // HierarchyChangeAuth
    row!(0x12a, 1, 0), // NV_DefineSpace
    row!(0x12b, 1, 0), // PCR_Allocate
    row!(0x12c, 1, 0), // PCR_SetAuthPolicy
    row!(0x12d, 1, 0), // PP_Commands
    row!(0x12e, 1, 0), // SetPrimaryPolicy
    row!(0x12f, 2, 0), // FieldUpgradeStart
    row!(0x130, 1, 0), // ClockRateAdjust
    row!(0x131, 1, 1), // CreatePrimary
    row!(0x132, 1, 0), // NV_GlobalWriteLock
    row!(0x133, 2, 0), // GetCommandAuditDigest
    row!(0x134, 2, 0), // NV_Increment
    row!(0x135, 2, 0), // NV_SetBits
    row!(0x136, 2, 0), // NV_Extend
    row!(0x137, 2, 0), // NV_Write
    row!(0x138, 2, 0), // NV_WriteLock
    row!(0x139, 1, 0), // DictionaryAttackLockReset
    row!(0x13a, 1, 0), // DictionaryAttackParameters
    row!(0x13b, 1, 0), // NV_ChangeAuth
    row!(0x13c, 1, 0), // PCR_Event
    row!(0x13d, 1, 0), // PCR_Reset
    row!(0x13e, 1, 0), // SequenceComplete
    row!(0x13f, 1, 0), // SetAlgorithmSet
    row!(0x140, 1, 0), // SetCommandCodeAuditStatus
    row!(0x141, 0, 0), // FieldUpgradeData
    row!(0x142, 0, 0), // IncrementalSelfTest
    row!(0x143, 0, 0), // SelfTest
    row!(0x144, 0, 0), // Startup
    row!(0x145, 0, 0), // Shutdown
    row!(0x146, 0, 0), // StirRandom
    row!(0x147, 2, 0), // ActivateCredential
    row!(0x148, 2, 0), // Certify
    row!(0x149, 3, 0), // PolicyNV
    row!(0x14a, 2, 0), // CertifyCreation
    row!(0x14b, 2, 0), // Duplicate
    row!(0x14c, 2, 0), // GetTime
    row!(0x14d, 3, 0), // GetSessionAuditDigest
    row!(0x14e, 2, 0), // NV_Read
    row!(0x14f, 2, 0), // NV_ReadLock
    row!(0x150, 2, 0), // ObjectChangeAuth
    row!(0x151, 2, 0), // PolicySecret
    row!(0x152, 2, 0), // Rewrap
    row!(0x153, 1, 0), // Create
    row!(0x154, 1, 0), // ECDH_ZGen
    row!(0x155, 1, 0), // HMAC
    row!(0x156, 1, 0), // Import
    row!(0x157, 1, 1), // Load
    row!(0x158, 1, 0), // Quote
    row!(0x159, 1, 0), // RSA_Decrypt
    row!(0x15b, 1, 1), // HMAC_Start
    row!(0x15c, 1, 0), // SequenceUpdate
    row!(0x15d, 1, 0), // Sign
    row!(0x15e, 1, 0), // Unseal
    row!(0x160, 2, 0), // PolicySigned
    row!(0x161, 0, 1), // ContextLoad
    row!(0x162, 1, 0), // ContextSave
    row!(0x163, 1, 0), // ECDH_KeyGen
    row!(0x164, 1, 0), // EncryptDecrypt
    row!(0x165, 0, 0), // FlushContext
    row!(0x167, 0, 1), // LoadExternal
    row!(0x168, 1, 0), // MakeCredential
    row!(0x169, 1, 0), // NV_ReadPublic
    row!(0x16a, 1, 0), // PolicyAuthorize
    row!(0x16b, 1, 0), // PolicyAuthValue
    row!(0x16c, 1, 0), // PolicyCommandCode
    row!(0x16d, 1, 0), // PolicyCounterTimer
    row!(0x16e, 1, 0), // PolicyCpHash
    row!(0x16f, 1, 0), // PolicyLocality
    row!(0x170, 1, 0), // PolicyNameHash
    row!(0x171, 1, 0), // PolicyOR
    row!(0x172, 1, 0), // PolicyTicket
    row!(0x173, 1, 0), // ReadPublic
    row!(0x174, 1, 0), // RSA_Encrypt
    row!(0x176, 2, 1), // StartAuthSession
    row!(0x177, 1, 0), // VerifySignature
    row!(0x178, 0, 0), // ECC_Parameters
    row!(0x179, 0, 0), // FirmwareRead
    row!(0x17a, 0, 0), // GetCapability
    row!(0x17b, 0, 0), // GetRandom
    row!(0x17c, 0, 0), // GetTestResult
    row!(0x17d, 0, 0), // Hash
    row!(0x17e, 0, 0), // PCR_Read
    row!(0x17f, 1, 0), // PolicyPCR
    row!(0x180, 1, 0), // PolicyRestart
    row!(0x181, 0, 0), // ReadClock
    row!(0x182, 1, 0), // PCR_Extend
    row!(0x183, 1, 0), // PCR_SetAuthValue
    row!(0x184, 3, 0), // NV_Certify
    row!(0x185, 2, 0), // EventSequenceComplete
    row!(0x186, 0, 1), // HashSequenceStart
    row!(0x187, 1, 0), // PolicyPhysicalPresence
    row!(0x188, 1, 0), // PolicyDuplicationSelect
    row!(0x189, 1, 0), // PolicyGetDigest
    row!(0x18a, 0, 0), // TestParms
    row!(0x18b, 1, 0), // Commit
    row!(0x18c, 1, 0), // PolicyPassword
    row!(0x18d, 1, 0), // ZGen_2Phase
    row!(0x18e, 0, 0), // EC_Ephemeral
    row!(0x18f, 1, 0), // PolicyNvWritten
    row!(0x190, 1, 0), // PolicyTemplate
    row!(0x191, 1, 1), // CreateLoaded
    row!(0x192, 3, 0), // PolicyAuthorizeNV
    row!(0x193, 1, 0), // EncryptDecrypt2
];

static CRATE: [Row; 14] = [
    row!(0x194, 1, 0), // AC_GetCapability
    row!(0x195, 3, 0), // AC_Send
    row!(0x196, 1, 0), // Policy_AC_SendSelect
    row!(0x198, 1, 0), // ACT_SetTimeout
    row!(0x199, 1, 0), // ECC_Encrypt
    row!(0x19a, 1, 0), // ECC_Decrypt
    row!(0x19b, 1, 0), // PolicyCapability
    row!(0x19c, 1, 0), // PolicyParameters
    row!(0x19d, 1, 0), // NV_DefineSpace2
    row!(0x19e, 1, 0), // NV_ReadPublic2
    row!(0x19f, 1, 0), // SetCapability
    row!(0x1a0, 1, 0), // ReadOnlyControl
    row!(0x1a1, 1, 0), // Policy_TransportSPDM
    row!(0x20000000, 0, 0), // Vendor_TCG_Test
];

// Vendor_TCG_Test alone
static LIB138: [Row; 1] = [row!(0x20000000, 0, 0)];

static LIB159: [Row; 6] = [
    row!(0x194, 1, 0), // AC_GetCapability
    row!(0x195, 3, 0), // AC_Send
    row!(0x196, 1, 0), // Policy_AC_SendSelect
    row!(0x197, 2, 0), // CertifyX509
    row!(0x198, 1, 0), // ACT_SetTimeout
    row!(0x20000000, 0, 0), // Vendor_TCG_Test
];

// What a table has behind the shared rows.
fn behind_shared(revision: Revision) -> &'static [Row]
    ensures { result.now ≡ own revision }
{
    match revision {
        Revision::Crate => &CRATE,
        Revision::Lib138 => &LIB138,
        Revision::Lib159 => &LIB159,
    }
}

// The row at a place of a whole table.
#[tactic(auto, using(crate::proofs::Table::places))]
pub(crate) fn row_at(revision: Revision, place: usize) -> Row
    requires { place < length (table_of revision) }
    ensures { result ≡ get_or (table_of revision) place none }
{
    if place < SHARED.len() {
        return SHARED[place];
    }
    behind_shared(revision)[place - SHARED.len()]
}
