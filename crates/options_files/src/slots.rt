// The wallet of credential files.
ghost use Rattle.std.specs.Prelude.{◌≡◌, ◌≤◌, ◌<◌, ◌++◌, [], ◌∷◌, length, map, IfOk};
ghost use Rattle.fit_table.specs.Wallet.{slots_in};
ghost use Rattle.options_files.specs.Contents.{slot_of, slots_of};
ghost use Rattle.options_files.specs.code.Meant.{meant};

use crate::content::Content;
use crate::credentials::CredentialFiles;
use fit_table::{NoMemory, Wallet};
use std::alloc::Global;

/// The wallet whose slots are those of the files, in their order: in each slot the credential that the file
/// holds, or the number of the first rule that it breaks; 0 where the file is no UTF-8, or was to be a mobile
/// document and is no base64url.
///
/// # Errors
///
/// [`NoMemory`] where it is out of memory.
pub fn wallet_of<'t>(alloc: Global, files: &'t CredentialFiles) -> Result<Wallet<'t>, NoMemory>
    ensures { IfOk result (λ wallet. slots_in wallet ≡ slots_of files.now) }
{
    wallet_with(alloc, files.contents())
}

fn wallet_with<'t>(alloc: Global, contents: &'t [Content]) -> Result<Wallet<'t>, NoMemory>
    requires { length contents.now ≤ 64 }
    ensures { IfOk result (λ wallet. slots_in wallet ≡ slots_of (map meant contents.now)) }
{
    let mut wallet = Wallet::new(alloc);
    for content in contents {
        add_slot(alloc, &mut wallet, content)?;
    }
    Ok(wallet)
}

// Adds the slot of a file that holds this.
fn add_slot<'t>(
    alloc: Global,
    wallet: &mut Wallet<'t>,
    content: &'t Content,
) -> Result<(), NoMemory>
    requires { length (slots_in wallet.old) < 64 }
    ensures { IfOk result (λ _.
        slots_in wallet.new ≡ slots_in wallet.old ++ slot_of (meant content.now) ∷ []) }
{
    match content {
        Content::Text(text) => wallet.add_sd(alloc, text.as_str()),
        Content::Document(bytes) => wallet.add_md(alloc, bytes),
        Content::Unreadable => wallet.add_unread(0),
    }
}
