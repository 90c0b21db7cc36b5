// Trees of a file.

ghost use Rattle.std.specs.Prelude.{◌≡◌, ◌+◌, ◌<◌, ◌++◌, length, IfOk, IsOk, IsTrue, codes, decimal, string_bytes};
ghost use Rattle.htree_file.specs.Answers.{IsOutside};
ghost use Rattle.htree_file.specs.Pages.{page_in};
ghost use Rattle.known_answers.specs.Files.{IsKept};
ghost use Rattle.known_answers.specs.Lines.{two_words};
ghost use Rattle.known_answers.specs.Trees.{IsMadeLine, fault_line, made_line, opened_by, page_word, pages_line, tree_line};
ghost use Rattle.mem_files.specs.Memory.{file_state};
ghost use Rattle.node_image.specs.Layout.{is_sized};

use crate::questions::{TreeImage, TreePages};
use crate::words::{push_number, push_word, two_words, word_of};
use htree_file::{Tree, TreeFault};
use mem_files::MemFile;
use node_image::{RootRef, greatest_node};
use sha2::{Digest, Sha256};
use std::alloc::{AllocError, Global};
use tee_ports::{FileRig, Image, ListEntropy, StoreFile};

/// A file of these bytes.
pub fn file_of(alloc: Global, bytes: Vec<u8>) -> Result<MemFile, AllocError>
    ensures { IfOk result (λ file. IsKept (file_state file) bytes.items) }
{
    let mut file = MemFile::new(alloc);
    file.restore(&Image::from_vec(bytes))?;
    Ok(file)
}

// The hash of a block's page, or that the block is bad.
fn page_word<F: StoreFile>(
    alloc: Global,
    tree: &mut Tree<F>,
    block: u32,
) -> Result<String, AllocError>
    requires block { block < tree.old.tree.head.greatest }
    requires kept { IsKept (F.state tree.old.file) (F.state tree.old.file).reads }
    ensures word { IfOk result (λ word. string_bytes word ≡
        page_word (page_in (F.state tree.old.file).reads tree.old.key tree.old.tree block)) }
    ensures same { tree.new ≡ record tree.old { file = tree.new.file } }
    ensures kept { IsKept (F.state tree.new.file) (F.state tree.old.file).reads }
{
    let mut page = [0; 4096];
    match tree.read_block(block, &mut page) {
        Ok(()) => hex::encode(alloc, Sha256::digest(&page)),
        Err(TreeFault::BadTag { .. }) => String::from_str(alloc, "bad"),
        Err(_) => Err(AllocError),
    }
}

// How many blocks a tree has.
fn block_count<F: StoreFile>(tree: &Tree<F>) -> u32
    requires { IsTrue (is_sized tree.now.tree.head) }
    ensures { result ≡ tree.now.tree.head.greatest }
{
    greatest_node(tree.length())
}

// The length of a tree and its blocks.
fn pages_line<F: StoreFile>(alloc: Global, tree: &mut Tree<F>) -> Result<String, AllocError>
    requires sized { IsTrue (is_sized tree.old.tree.head) }
    requires all { length tree.old.tree.nodes ≡ tree.old.tree.head.greatest }
    requires kept { IsKept (F.state tree.old.file) (F.state tree.old.file).reads }
    ensures { IfOk result (λ line. string_bytes line ≡ pages_line (opened_by tree.old.key (F.state tree.old.file).reads tree.old.tree)) }
{
    let mut line = String::from_str(alloc, "length ")?;
    push_number(&mut line, tree.length())?;
    for block in 0..block_count(tree) {
        line.push_str(" ")?;
        line.push_str(&page_word(alloc, tree, block)?)?;
    }
    Ok(line)
}

// A name and two numbers.
fn numbers_line(alloc: Global, name: &str, first: u64, second: u64) -> Result<String, AllocError>
    ensures { IfOk result (λ line. string_bytes line ≡ name.now ++ decimal first ++ codes " " ++ decimal second) }
{
    let mut line = String::from_str(alloc, name)?;
    push_number(&mut line, first)?;
    line.push_str(" ")?;
    push_number(&mut line, second)?;
    Ok(line)
}

fn hash_line(
    alloc: Global,
    node: u32,
    want: &[u8; 32],
    found: &[u8; 32],
) -> Result<String, AllocError>
    ensures { IfOk result (λ line. string_bytes line ≡ codes "hash " ++ decimal node ++ codes " " ++ two_words want.now found.now) }
{
    let mut line = String::from_str(alloc, "hash ")?;
    push_number(&mut line, u64::from(node))?;
    line.push_str(" ")?;
    line.push_str(&two_words(alloc, want, found)?)?;
    Ok(line)
}

// The fault that a tree is refused by. Any other that loading can answer is want of memory.
fn fault_line(alloc: Global, fault: TreeFault) -> Result<String, AllocError>
    ensures line { IfOk result (λ line. string_bytes line ≡ fault_line fault) }
    ensures inside { IsOk result → IsOutside fault → ⊥ }
{
    match fault {
        TreeFault::BadHead { length, greatest } => {
            numbers_line(alloc, "head ", length, u64::from(greatest))
        }
        TreeFault::Damaged { node, want, found } => hash_line(alloc, node, &want, &found),
        TreeFault::Short { end, need } => numbers_line(alloc, "short ", end, need),
        _ => Err(AllocError),
    }
}

/// The line that says what a reference opens to in an image.
pub fn opened_tree(alloc: Global, question: TreeImage) -> Result<String, AllocError>
    ensures { IfOk result (λ line. string_bytes line ≡ tree_line question) }
{
    let TreeImage { tsk, root, image } = question;
    let file = file_of(alloc, image)?;
    match Tree::load(alloc, file, &tsk, root) {
        Ok(mut tree) => pages_line(alloc, &mut tree),
        Err(broken) => fault_line(alloc, broken.fault),
    }
}

// A reference and an image.
fn made_line(alloc: Global, root: &RootRef, image: &[u8]) -> Result<String, AllocError>
    ensures { IfOk result (λ line. string_bytes line ≡ made_line root.now image.now) }
{
    let mut line = word_of(alloc, &root.hash)?;
    line.push_str(" ")?;
    push_number(&mut line, u64::from(root.version))?;
    push_word(alloc, &mut line, image)?;
    Ok(line)
}

/// The line that gives a tree of these pages: its root and the whole file. What is drawn for it is the same for each
/// question.
pub fn made_tree(alloc: Global, question: TreePages) -> Result<String, AllocError>
    ensures { IfOk result (λ line. IsMadeLine question (string_bytes line)) }
{
    let TreePages {
        tsk,
        format,
        bytes,
        pages,
    } = question;
    let mut draws = ListEntropy::new([0; 16]);
    match Tree::make(
        alloc,
        MemFile::new(alloc),
        format,
        &tsk,
        bytes,
        &pages,
        &mut draws,
    ) {
        Ok((tree, root)) => made_line(alloc, &root, tree.into_file().save()?.bytes()),
        Err(_) => Err(AllocError),
    }
}
